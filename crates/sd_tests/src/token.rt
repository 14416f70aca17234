//! Tokens.

use sd_core::{EntryKind, Sid, Token, TokenFull};

#[test]
fn holds_1024_entries(rt: HostRuntime) {
    let sid = Sid::new(5, &[18]).expect(&rt, "a SID");
    let last = Sid::new(5, &[19]).expect(&rt, "a SID");
    let mut token = Token::new(rt.alloc()).expect(&rt, "memory for a token");
    for _ in 0..1023 {
        assert!(rt; token.add(sid, EntryKind::Enabled) == Ok(()));
    }
    assert!(rt; token.add(last, EntryKind::Enabled) == Ok(()));
    assert!(rt; token.add(sid, EntryKind::DenyOnly) == Err(TokenFull));
    assert!(rt; token.len() == 1024);
    assert!(rt; token.compared() == 0);
    if token.len() == 1024 {
        assert!(rt; token.meets(1023, &last, false));
        assert!(rt; !token.meets(1023, &sid, true));
        assert!(rt; !token.meets(1022, &last, true));
        assert!(rt; token.meets(0, &sid, false));
    }
    assert!(rt; token.compared() == 4);
}

#[test]
fn meets_and_counts(rt: HostRuntime) {
    let system = Sid::new(5, &[18]).expect(&rt, "a SID");
    let service = Sid::new(5, &[19]).expect(&rt, "a SID");
    let other = Sid::new(4, &[18]).expect(&rt, "a SID");
    let mut token = Token::new(rt.alloc()).expect(&rt, "memory for a token");
    assert!(rt; token.len() == 0 && token.compared() == 0);
    assert!(rt; token.add(system, EntryKind::Enabled) == Ok(()));
    assert!(rt; token.add(service, EntryKind::DenyOnly) == Ok(()));
    assert!(rt; token.len() == 2);
    if token.len() == 2 {
        assert!(rt; token.meets(0, &system, false));
        assert!(rt; !token.meets(0, &service, true));
        assert!(rt; !token.meets(0, &other, true));
        assert!(rt; !token.meets(1, &service, false));
        assert!(rt; token.meets(1, &service, true));
    }
    assert!(rt; token.compared() == 5);
}

// The level is no entry: it takes no room and is never compared.
#[test]
fn keeps_its_level(rt: HostRuntime) {
    let system = Sid::new(5, &[18]).expect(&rt, "a SID");
    let mut token = Token::new(rt.alloc()).expect(&rt, "memory for a token");
    assert!(rt; token.level() == None);
    for level in [None, Some(0), Some(8192), Some(u32::MAX), None, Some(4096)] {
        token.set_level(level);
        assert!(rt; token.level() == level);
        assert!(rt; token.len() == 0 && token.compared() == 0);
    }
    assert!(rt; token.add(system, EntryKind::Enabled) == Ok(()));
    if token.len() == 1 {
        assert!(rt; token.meets(0, &system, false));
    }
    assert!(rt; token.level() == Some(4096) && token.len() == 1 && token.compared() == 1);
}
