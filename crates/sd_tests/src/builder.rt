//! Descriptors built part by part, and edited. Those in the order of the layout stand in `tests/rows/`, from SDDL.
ghost use Rattle.sd_builder.specs.Builds.{Builds};
ghost use Rattle.sd_builder.specs.Draft.{Draft, IsOpen, with_ace};

use sd_binary::{AclTooLarge, Builder, SdBuf, Which, read};
use sd_core::{Ace, AceKind, Sid};
use sd_edit::{AclChange, Change, ChangeFault, Edited, ListChange, edit};
use sd_sddl::read_sddl;
use std::process::Abort;

fn expect_hex(rt: &(impl Abort + AllocGlobal), buf: &SdBuf, text: &str) {
    let got = hex::encode(rt.alloc(), buf.bytes()).expect(rt, "memory for the digits");
    assert!(rt; got.as_str() == text);
}

fn expect_ace(rt: &impl Abort, builder: &mut Builder, buf: &mut SdBuf, ace: &Ace)
    requires { (t : Draft) × Builds builder.old buf.old t × IsOpen t.parts }
    ensures { (t : Draft) → Builds builder.old buf.old t
        → Builds builder.new buf.new (record t { parts = with_ace ace.now t.parts }) }
{
    assert!(rt; builder.ace(buf, ace) == Ok(()));
}

// The bytes of the tests were put together from MS-DTYP 2.4.2.2, 2.4.4.2, 2.4.4.3, 2.4.5 and 2.4.6.
#[test]
fn builds_without_aces(rt: HostRuntime) {
    let mut buf = SdBuf::new(rt.alloc()).expect(&rt, "memory");
    Builder::new(&mut buf).finish(&mut buf, 0, 0);
    expect_hex(&rt, &buf, "0100008000000000000000000000000000000000");
    Builder::new(&mut buf).finish(&mut buf, 0xffff, 0xff);
    expect_hex(&rt, &buf, "01ffebff00000000000000000000000000000000");
    let mut builder = Builder::new(&mut buf);
    builder.null_acl(&mut buf, Which::Dacl);
    builder.finish(&mut buf, 0, 0);
    expect_hex(&rt, &buf, "0100048000000000000000000000000000000000");
    let mut builder = Builder::new(&mut buf);
    builder.begin_acl(&mut buf, Which::Dacl);
    builder.end_acl(&mut buf);
    builder.finish(&mut buf, 0, 0);
    let text = "01000480000000000000000000000000140000000200080000000000";
    expect_hex(&rt, &buf, text);
    // In the order of the calls.
    let everyone = Sid::new(1, &[0]).expect(&rt, "a SID");
    let mut builder = Builder::new(&mut buf);
    builder.begin_acl(&mut buf, Which::Sacl);
    builder.end_acl(&mut buf);
    builder.owner(&mut buf, &everyone);
    builder.finish(&mut buf, 0x1000, 0);
    let text = "010010901c0000000000000014000000000000000200080000000000010100000000000100000000";
    expect_hex(&rt, &buf, text);
}

// Header and ACL header take 28 bytes, and an ACE for S-1-1-0 takes 20.
#[test]
fn takes_an_acl_of_65528_bytes(rt: HostRuntime) {
    let everyone = Sid::new(1, &[0]).expect(&rt, "a SID");
    let ace = Ace::new(AceKind::Deny, 0, 1, None, None, everyone).expect(&rt, "an ACE");
    let mut buf = SdBuf::new(rt.alloc()).expect(&rt, "memory");
    let mut builder = Builder::new(&mut buf);
    builder.begin_acl(&mut buf, Which::Sacl);
    for _ in 0..3_276 {
        expect_ace(&rt, &mut builder, &mut buf, &ace);
    }
    assert!(rt; buf.bytes().len() == 65_548);
    let full = hex::encode(rt.alloc(), buf.bytes()).expect(&rt, "memory for the digits");
    assert!(rt; builder.ace(&mut buf, &ace) == Err(AclTooLarge));
    expect_hex(&rt, &buf, full.as_str());
    builder.end_acl(&mut buf);
    builder.finish(&mut buf, 0, 0);
    let whole = hex::encode(rt.alloc(), buf.bytes()).expect(&rt, "memory for the digits");
    let front = "01001080000000000000000014000000000000000200f8ffcc0c0000";
    assert!(rt; whole.as_str().starts_with(front));
}

#[test]
fn makes_changes_one_after_the_other(rt: HostRuntime) {
    let mut buf = SdBuf::new(rt.alloc()).expect(&rt, "memory");
    assert!(rt; read_sddl(b"O:BAD:(A;;FR;;;WD)(A;ID;FA;;;SY)", None, &mut buf) == Ok(()));
    let view = read(buf.bytes()).expect(&rt, "a descriptor");
    let mut edited = Edited::of(rt.alloc(), &view).expect(&rt, "memory");
    let take = Change::Acl(Which::Dacl, AclChange::List(ListChange::Take(0)));
    let changes = [take, Change::Owner(None), take, take];
    let mut counts = Vec::new(rt.alloc());
    let made = edit(rt.alloc(), &mut edited, &changes, &mut counts).expect(&rt, "memory");
    assert!(rt; made == Err(ChangeFault::Impossible(Which::Dacl)) && edited.owner == None);
    assert!(rt; counts.as_slice() == [1, 0, 1].as_slice());
}
