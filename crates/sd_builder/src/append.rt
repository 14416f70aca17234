//! SIDs and ACEs appended to a buffer.

ghost use Rattle.std.specs.Prelude.{◌≡◌, ◌≤◌, ◌+◌, ◌*◌, ◌∷◌, ◌++◌, length, take, true, false};
ghost use Rattle.std.specs.List.{flat_map};
ghost use Rattle.byteorder.specs.Endian.{big_bytes, little_bytes};
ghost use Rattle.sd_ace.specs.Ace.{IsAce, ace_size};
ghost use Rattle.sd_ace.specs.AceHead.{plain_ace};
ghost use Rattle.sd_ace.specs.AceLayout.{ace_bytes, guid_part};
ghost use Rattle.sd_builder.specs.Trustee.{IsTrustee, trustee_sid};
ghost use Rattle.sd_kinds.specs.Kinds.{is_object};
ghost use Rattle.sd_parts.specs.declared.limits.TheConstants.{CAPACITY, MOST_SID_SIZE};
ghost use Rattle.sd_sid.specs.Account.{account_sid};
ghost use Rattle.sd_sid.specs.Sid.{IsSid, sid_bytes, sid_size};
ghost use Rattle.sd_sid.specs.SidText.{known_sid};

use crate::trustee::{ACCOUNT_SID_SIZE, ACCOUNT_SUBS, Trustee};
use byteorder::{ByteOrder, LittleEndian};
use sd_ace::{AceFront, AceHead, AceParts, FRONT_SIZE, guid_bytes};
use sd_alias::{MOST_KNOWN, WellKnown};
use sd_buffer::SdBuf;
use sd_sid::{Account, Sid};
use uuid::Uuid;

// The size of an ACE without object types for an account of a domain.
const ACCOUNT_ACE_SIZE: usize = FRONT_SIZE + ACCOUNT_SID_SIZE;

// The first sub-authority of an account of a domain.
const DOMAIN: u32 = 21;

// Nearly every SID with a name has at most so many sub-authorities.
const NAMED_SUBS: usize = 2;

// The size of such a SID.
const NAMED_SID_SIZE: usize = 8 + 4 * NAMED_SUBS;

// The size of an ACE without object types for such a SID.
const NAMED_ACE_SIZE: usize = FRONT_SIZE + NAMED_SID_SIZE;

// Appends the SID of a trustee, and returns its offset.
#[inline(always)]
pub(crate) fn append_sid_at(buf: &mut SdBuf, trustee: Trustee<'_>) -> u32
    requires room { length buf.old + MOST_SID_SIZE ≤ CAPACITY }
    requires trustee { IsTrustee trustee }
    ensures offset { result ≡ length buf.old }
    ensures value { buf.new ≡ buf.old ++ sid_bytes (trustee_sid trustee.entry) }
    ensures limits { IsSid (trustee_sid trustee.entry) }
{
    let offset = buf.bytes().len() as u32;
    // Shows that the SID keeps the limits.
    let _ = trustee.size();
    append_sid(buf, trustee);
    offset
}

// Appends the SID of a trustee (MS-DTYP 2.4.2.2). Inlined, since most of a descriptor's bytes are SIDs.
#[inline(always)]
fn append_sid(buf: &mut SdBuf, trustee: Trustee<'_>)
    requires room { length buf.old + MOST_SID_SIZE ≤ CAPACITY }
    requires trustee { IsTrustee trustee }
    requires limits { IsSid (trustee_sid trustee) }
    ensures { buf.new ≡ buf.old ++ sid_bytes (trustee_sid trustee.entry) }
{
    match trustee {
        Trustee::Account(account) => buf.append(&account_sid_bytes(account)),
        Trustee::Named(name) => append_named_sid(buf, name),
        Trustee::Sid(sid) => append_any_sid(buf, sid),
    }
}

// Appends an ACE without object types (MS-DTYP 2.4.4.2). Most ACEs are such, for an account or a name. The number of
// their bytes is known when the program is built, so they are copied at once.
#[inline(always)]
pub(crate) fn append_ace(buf: &mut SdBuf, head: AceHead, trustee: Trustee<'_>)
    requires room { length buf.old + 4 + ace_size (plain_ace head (trustee_sid trustee)) ≤ CAPACITY }
    requires trustee { IsTrustee trustee }
    ensures { buf.new ≡ buf.old ++ ace_bytes (plain_ace head (trustee_sid trustee.entry)) }
{
    let front = head.bytes(plain_size(head, trustee));
    match trustee {
        Trustee::Account(account) => buf.append(&account_ace(&front, &account_sid_bytes(account))),
        Trustee::Named(name) => append_named_behind(buf, &front, name),
        Trustee::Sid(sid) => append_sid_behind(buf, &front, sid),
    }
}

// The size of such an ACE, which shows that it keeps the limits.
#[inline(always)]
pub(crate) fn plain_size(head: AceHead, trustee: Trustee<'_>) -> u16
    requires { IsTrustee trustee }
    ensures value { result ≡ ace_size (plain_ace head (trustee_sid trustee.entry)) }
    ensures limits { IsAce (plain_ace head (trustee_sid trustee.entry)) }
    ensures plain { is_object head.kind ≡ false }
{
    head.size() + trustee.size()
}

// The bytes of an account's SID behind those that an ACE has before it.
#[tactic(auto, using(crate::proofs::PlainAces::behind))]
#[inline(always)]
fn account_ace(front: &[u8; FRONT_SIZE], sid: &[u8; ACCOUNT_SID_SIZE]) -> [u8; ACCOUNT_ACE_SIZE]
    ensures { result ≡ front.now ++ sid.now }
{
    let mut bytes = [0; ACCOUNT_ACE_SIZE];
    bytes[..FRONT_SIZE].copy_from_slice(front);
    bytes[FRONT_SIZE..].copy_from_slice(sid);
    bytes
}

// The same for the SID of a name, with room for two numbers.
#[tactic(auto, using(crate::proofs::PlainAces::behind))]
#[inline(always)]
fn named_ace(front: &[u8; FRONT_SIZE], sid: &[u8; NAMED_SID_SIZE]) -> [u8; NAMED_ACE_SIZE]
    ensures { result ≡ front.now ++ sid.now }
{
    let mut cells = [0; NAMED_ACE_SIZE];
    cells[..FRONT_SIZE].copy_from_slice(front);
    cells[FRONT_SIZE..].copy_from_slice(sid);
    cells
}

// Appends the SID of a name behind the front of an ACE.
#[inline(always)]
fn append_named_behind(buf: &mut SdBuf, front: &[u8; FRONT_SIZE], name: &WellKnown)
    requires room { length buf.old + 12 + sid_size (known_sid name.now) ≤ CAPACITY }
    requires count { name.now.count ≤ MOST_KNOWN }
    ensures { buf.new ≡ buf.old ++ (front.now ++ sid_bytes (known_sid name.now)) }
{
    let count = name.count;
    // One number and two are copied alike, since a branch on the count is hard to predict. There is room for one number
    // more than there are, but not for two.
    if 0 < count && count <= NAMED_SUBS {
        let cells = named_ace(front, &named_sid_cells(name));
        buf.append_front(&cells, FRONT_SIZE + 8 + 4 * count);
    } else {
        buf.append(front);
        append_long_sid(buf, name);
    }
}

// Appends any SID behind the front of an ACE.
#[inline(always)]
fn append_sid_behind(buf: &mut SdBuf, front: &[u8; FRONT_SIZE], sid: &Sid)
    requires { length buf.old + FRONT_SIZE + sid_size sid.now ≤ CAPACITY }
    ensures { buf.new ≡ buf.old ++ (front.now ++ sid_bytes sid.now) }
{
    if sid.subs().len() == ACCOUNT_SUBS {
        let bytes = usual_bytes(&sid.header(), sid.subs());
        buf.append(&account_ace(front, &bytes));
    } else {
        buf.append(front);
        append_any_sid(buf, sid);
    }
}

// Appends any SID.
#[inline(always)]
fn append_any_sid(buf: &mut SdBuf, sid: &Sid)
    requires { length buf.old + sid_size sid.now ≤ CAPACITY }
    ensures { buf.new ≡ buf.old ++ sid_bytes sid.now }
{
    let subs = sid.subs();
    if subs.len() == ACCOUNT_SUBS {
        buf.append(&usual_bytes(&sid.header(), subs));
    } else {
        buf.append(&sid.header());
        append_subs(buf, subs);
    }
}

// The bytes of a SID that has as many sub-authorities as an account of a domain.
#[tactic(auto, using(crate::proofs::PlainAces::behind))]
#[inline(always)]
fn usual_bytes(header: &[u8; 8], subs: &[u32]) -> [u8; ACCOUNT_SID_SIZE]
    requires { length subs.now ≡ ACCOUNT_SUBS }
    ensures { result ≡ header.now ++ flat_map (little_bytes 4) subs.now }
{
    let mut bytes = [0; ACCOUNT_SID_SIZE];
    bytes[..8].copy_from_slice(header);
    bytes[8..].copy_from_slice(&account_subs(subs));
    bytes
}

// The bytes of as many sub-authorities. Their number is known when the program is built, so they are copied at once.
fn account_subs(subs: &[u32]) -> [u8; 4 * ACCOUNT_SUBS]
    requires { length subs.now ≡ ACCOUNT_SUBS }
    ensures { result ≡ flat_map (little_bytes 4) subs.now }
{
    let mut bytes = [0; 4 * ACCOUNT_SUBS];
    LittleEndian::write_u32_into(&subs[..ACCOUNT_SUBS], &mut bytes);
    bytes
}

// Appends sub-authorities one after the other.
fn append_subs(buf: &mut SdBuf, subs: &[u32])
    requires { length buf.old + 4 * length subs.now ≤ CAPACITY }
    ensures { buf.new ≡ buf.old ++ flat_map (little_bytes 4) subs.now }
{
    for sub in subs {
        buf.append(&sub.to_le_bytes());
    }
}

// The bytes of the SID of an account.
#[inline(always)]
fn account_sid_bytes(account: Account) -> [u8; ACCOUNT_SID_SIZE]
    ensures { result ≡ sid_bytes (account_sid account) }
{
    let subs = [
        DOMAIN,
        account.first,
        account.second,
        account.third,
        account.last,
    ];
    usual_bytes(&sid_header(5, ACCOUNT_SUBS as u8), &subs)
}

// Appends the SID of a name.
#[inline(always)]
fn append_named_sid(buf: &mut SdBuf, name: &WellKnown)
    requires room { length buf.old + MOST_SID_SIZE ≤ CAPACITY }
    requires count { name.now.count ≤ MOST_KNOWN }
    ensures { buf.new ≡ buf.old ++ sid_bytes (known_sid name.now) }
{
    if name.count <= NAMED_SUBS {
        buf.append_front(&named_sid_cells(name), 8 + 4 * name.count);
    } else {
        append_long_sid(buf, name);
    }
}

// The bytes of the SID of a name that has at most two numbers, with room for two.
#[inline(always)]
fn named_sid_cells(name: &WellKnown) -> [u8; NAMED_SID_SIZE]
    requires { name.now.count ≤ NAMED_SUBS }
    ensures { take (sid_size (known_sid name.now)) result ≡ sid_bytes (known_sid name.now) }
{
    let mut cells = [0; NAMED_SID_SIZE];
    cells[..8].copy_from_slice(&sid_header(name.authority, name.count as u8));
    cells[8..12].copy_from_slice(&name.subs[0].to_le_bytes());
    cells[12..].copy_from_slice(&name.subs[1].to_le_bytes());
    cells
}

// Appends the SID of a name, number by number. Apart, since few names have more than two.
#[inline(never)]
fn append_long_sid(buf: &mut SdBuf, name: &WellKnown)
    requires room { length buf.old + sid_size (known_sid name.now) ≤ CAPACITY }
    requires count { name.now.count ≤ MOST_KNOWN }
    ensures { buf.new ≡ buf.old ++ sid_bytes (known_sid name.now) }
{
    let numbers = &name.subs[..name.count];
    buf.append(&sid_header(name.authority, name.count as u8));
    append_subs(buf, numbers);
}

// What a SID begins with, whose identifier authority has one byte: revision, count and authority (MS-DTYP 2.4.2.2).
#[inline(always)]
fn sid_header(authority: u8, count: u8) -> [u8; 8]
    ensures { result ≡ 1 ∷ count ∷ big_bytes 6 authority }
{
    [1, count, 0, 0, 0, 0, 0, authority]
}

// Appends an ACE whose parts stand elsewhere (MS-DTYP 2.4.4).
pub(crate) fn append_parts(buf: &mut SdBuf, ace: &AceParts<'_>)
    requires { length buf.old + 4 + ace_size ace.now ≤ CAPACITY }
    ensures { buf.new ≡ buf.old ++ ace_bytes ace.now }
{
    match AceHead::of_parts(ace) {
        Some(head) => append_ace(buf, head, Trustee::Sid(ace.trustee())),
        None => append_object_ace(buf, ace),
    }
}

// Appends an ACE of an object kind (MS-DTYP 2.4.4.3).
fn append_object_ace(buf: &mut SdBuf, ace: &AceParts<'_>)
    requires room { length buf.old + ace_size ace.now ≤ CAPACITY }
    requires object { is_object ace.now.kind ≡ true }
    ensures { buf.new ≡ buf.old ++ ace_bytes ace.now }
{
    let front = AceFront::of_parts(ace);
    buf.append_front(front.cells(), front.len());
    append_guid(buf, ace.object());
    append_guid(buf, ace.inherited());
    append_any_sid(buf, ace.trustee());
}

// Appends a GUID that may be there (MS-DTYP 2.3.4.2).
fn append_guid(buf: &mut SdBuf, guid: &Option<Uuid>)
    requires { length buf.old + length (guid_part guid.now) ≤ CAPACITY }
    ensures { buf.new ≡ buf.old ++ guid_part guid.now }
{
    if let Some(guid) = guid {
        buf.append(&guid_bytes(guid));
    }
}
