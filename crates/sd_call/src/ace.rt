//! What a walk finds of an ACE.

ghost use Rattle.std.specs.Prelude.{◌≡◌, ◌<◌, ◌+◌, ◌^◌};
ghost use Rattle.sd_ace.specs.Ace.{guid_size as size_of_guid, sid_offset as offset_of_sid};
ghost use Rattle.sd_call.specs.Walk.{found, guid_place};

use crate::place::{Place, nowhere};
use sd_ace::{FRONT_SIZE, GUID_SIZE, OBJECT_FRONT_SIZE};
use sd_acl_view::AceView;
use sd_kinds::AceKind;
use uuid::Uuid;

/// An ACE of an ACL, and how far the walk has come: `struct sdtool_ace` of the header.
#[repr(C)]
#[derive(Clone, Copy)]
pub struct AceFound {
    /// 0, or the number of the fault that ends the walk.
    pub fault: u32,
    /// The access mask.
    pub mask: u32,
    /// How many ACEs the walk has passed, this one included.
    pub number: u32,
    /// The type byte (MS-DTYP 2.4.4.1).
    pub kind: u8,
    /// The flags of inheritance and audit.
    pub flags: u8,
    /// The whole ACE. The next one begins behind it.
    pub place: Place,
    /// The GUID of the object type.
    pub object_type: Place,
    /// The GUID of the inherited object type.
    pub inherited_object_type: Place,
    /// The SID of the trustee.
    pub sid: Place,
}

/// What is told of an ACE that lies at an offset.
pub fn found(ace: &AceView<'_>, number: u32, place: Place) -> AceFound
    requires { place.offset < 2 ^ 32 }
    ensures { result ≡ found number place ace.now }
{
    let kind = ace.kind();
    let object = ace.object();
    let inherited = ace.inherited();
    let guids = place.offset + OBJECT_FRONT_SIZE;
    AceFound {
        fault: 0,
        mask: ace.mask(),
        number,
        kind: kind.code(),
        flags: ace.flags(),
        place,
        object_type: guid_place(guids, &object),
        inherited_object_type: guid_place(guids + guid_size(&object), &inherited),
        sid: Place {
            offset: place.offset + sid_offset(kind, &object, &inherited),
            size: ace.sid().size(),
        },
    }
}

// Where the SID of an ACE stands in it.
fn sid_offset(kind: AceKind, object: &Option<Uuid>, inherited: &Option<Uuid>) -> usize
    ensures value { result ≡ offset_of_sid kind object.now inherited.now }
    ensures small { result < 45 }
{
    if kind.is_object() {
        OBJECT_FRONT_SIZE + guid_size(object) + guid_size(inherited)
    } else {
        FRONT_SIZE
    }
}

fn guid_size(guid: &Option<Uuid>) -> usize
    ensures value { result ≡ size_of_guid guid.now }
    ensures small { result < 17 }
{
    match guid {
        None => 0,
        Some(_) => GUID_SIZE,
    }
}

// The place of a GUID that may be there.
fn guid_place(offset: usize, guid: &Option<Uuid>) -> Place
    ensures { result ≡ guid_place offset guid.now }
{
    match guid {
        None => nowhere(),
        Some(_) => Place {
            offset,
            size: GUID_SIZE,
        },
    }
}
