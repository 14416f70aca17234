//! SIDs, ACEs and masks as values. The texts of SIDs and their aliases stand in `tests/rows/` and
//! `tests/program/tables.py`.

use sd_core::{Ace, AceKind, Mapping, Sid, has_right};
use uuid::Uuid;

// The SIDs and their bytes are those of MS-DTYP 2.4.2.4 and of well-known Windows accounts.
#[test]
fn reads_well_known_sids(rt: HostRuntime) {
    let administrators = [1, 2, 0, 0, 0, 0, 0, 5, 32, 0, 0, 0, 32, 2, 0, 0, 0xff];
    assert!(rt; Sid::read(&administrators) == Sid::new(5, &[32, 544]).map(|sid| (sid, 16)));
    assert!(rt; Sid::read(&administrators[..15]) == None);
    let everyone = [1, 1, 0, 0, 0, 0, 0, 1, 0, 0, 0, 0];
    assert!(rt; Sid::read(&everyone) == Sid::new(1, &[0]).map(|sid| (sid, 12)));
    let (sid, size) = Sid::read(&everyone).expect(&rt, "a SID");
    assert!(rt; size == sid.size());
    assert!(rt; sid.authority() == 1);
    assert!(rt; sid.subs() == [0].as_slice());
    assert!(rt; Sid::new(1 << 48, &[]) == None);
    assert!(rt; Sid::new(5, &[0; 16]) == None);
}

// Header, mask and the SID S-1-1-0 take 20 bytes, object flags 4 and a GUID 16 (MS-DTYP 2.4.4.2 and 2.4.4.3). The GUIDs
// are object classes of Active Directory.
#[test]
fn keeps_its_parts_and_counts_its_bytes(rt: HostRuntime) {
    let everyone = Sid::new(1, &[0]).expect(&rt, "a SID");
    let user = Uuid::parse_str("bf967aba-0de6-11d0-a285-00aa003049e2").ok();
    let group = Uuid::parse_str("bf967a9c-0de6-11d0-a285-00aa003049e2").ok();
    assert!(rt; user.is_some() && group.is_some() && user != group);
    for (kind, object, inherited, size) in [
        (AceKind::Allow, None, None, 20),
        (AceKind::ObjectDeny, None, None, 24),
        (AceKind::ObjectAudit, None, group, 40),
        (AceKind::ObjectAllow, user, group, 56),
    ] {
        let ace = Ace::new(kind, 0xdf, 0x10, object, inherited, everyone).expect(&rt, "an ACE");
        assert!(rt; ace.size() == size);
        assert!(rt; ace.kind() == kind);
        assert!(rt; ace.flags() == 0xdf);
        assert!(rt; ace.mask() == 0x10);
        assert!(rt; ace.object() == object);
        assert!(rt; ace.inherited() == inherited);
        assert!(rt; ace.sid() == everyone);
    }
    assert!(rt; Ace::new(AceKind::Allow, 0x20, 1, None, None, everyone) == None);
    assert!(rt; Ace::new(AceKind::Label, 0, 1, user, None, everyone) == None);
    assert!(rt; Ace::new(AceKind::Deny, 0, 1, None, group, everyone) == None);
}

// Of bits that no request may have, too. What generic rights mean stands in `tests/rows/access_check.json`.
#[test]
fn maps_generic_rights_alone(rt: HostRuntime) {
    for mapping in [Mapping::FILE, Mapping::KEY, Mapping::DS] {
        assert!(rt; mapping.map(0xfffffff) == 0xfffffff);
        let generic = mapping.read() | mapping.write() | mapping.execute() | mapping.all();
        assert!(rt; mapping.map(0xffffffff) == 0xfffffff | generic);
    }
    for place in 0u32..32 {
        let right: u32 = 1 << place;
        assert!(rt; right > 0);
        assert!(rt; has_right(right, right));
        assert!(rt; !has_right(!right, right));
    }
}
