//! Whether the bytes of a descriptor are its written layout.

ghost use Rattle.std.specs.Prelude.{◌≡◌, ◌==◌, true};
ghost use Rattle.sd_view.specs.Layout.{layout, offset_if as offset_of};
ghost use Rattle.sd_view.specs.WrittenForm.{AclIsWritten};
ghost use Rattle.sd_view.specs.Inner.Found.{shown_written, written_of};
ghost use Rattle.sd_view.specs.Inner.Readable.{IsAclAt, Readable};
ghost use Rattle.sd_view.specs.Reading.{acl_shown, shown};

use crate::view::{Acls, sid_bytes_at};
use sd_acl_view::{Written, is_written, u16_at, u32_at};
use sd_parts::{
    DACL_OFFSET, DACL_PRESENT, GROUP_OFFSET, HEADER_SIZE, OWNER_OFFSET, SACL_OFFSET, SACL_PRESENT,
    has_bit,
};

// Whether bytes without a fault are the written layout of what they show (MS-DTYP 2.4.6): its parts follow the header
// and each other, nothing follows them, and the ACLs have their written form.
#[inline(always)]
pub(crate) fn is_laid_out(bytes: &[u8], acls: Acls) -> bool
    requires readable { Readable bytes.now }
    requires acls { acls ≡ shown_written (shown bytes.now) }
    ensures { result ≡ true → bytes.now ≡ layout (shown bytes.now) }
{
    let owner = sid_bytes_at(bytes, u32_at(bytes, OWNER_OFFSET)).len();
    let group = sid_bytes_at(bytes, u32_at(bytes, GROUP_OFFSET)).len();
    let group_start = HEADER_SIZE + owner;
    let sacl_start = group_start + group;
    let dacl_start = sacl_start + acls.sacl.size;
    if bytes.len() != dacl_start + acls.dacl.size
        || !stands_at(u32_at(bytes, OWNER_OFFSET), HEADER_SIZE, owner)
        || !stands_at(u32_at(bytes, GROUP_OFFSET), group_start, group)
        || !stands_at(u32_at(bytes, SACL_OFFSET), sacl_start, acls.sacl.size)
        || !stands_at(u32_at(bytes, DACL_OFFSET), dacl_start, acls.dacl.size)
    {
        return false;
    }
    let control = u16_at(bytes, 2);
    let has_sacl = has_bit(control, SACL_PRESENT);
    if !is_acl_written(bytes, has_sacl, u32_at(bytes, SACL_OFFSET), acls.sacl) {
        return false;
    }
    let has_dacl = has_bit(control, DACL_PRESENT);
    is_acl_written(bytes, has_dacl, u32_at(bytes, DACL_OFFSET), acls.dacl)
}

// Whether the offset is that of a part of this size that begins there.
#[inline(always)]
fn stands_at(offset: u32, start: usize, size: usize) -> bool
    ensures { result ≡ (offset == offset_of start size) }
{
    offset as usize == if size == 0 { 0 } else { start }
}

// Whether an ACL that was checked stands in its written form at an offset, and none where the offset is 0.
#[inline(always)]
#[tactic(auto, unfolding(crate::specs::Reading::acl_shown))]
fn is_acl_written(bytes: &[u8], present: bool, offset: u32, written: Written) -> bool
    requires extent { IsAclAt bytes.now present offset }
    requires written { written ≡ written_of (acl_shown bytes.now present offset) }
    ensures { result ≡ true → AclIsWritten bytes.now offset (acl_shown bytes.now present offset) }
{
    if offset == 0 {
        return true;
    }
    if !present {
        return false;
    }
    let rest = &bytes[offset as usize..];
    is_written(&rest[..usize::from(u16_at(rest, 2))], written)
}
