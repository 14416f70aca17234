//! Calls of the library that check access, a descriptor a call or many of them.

use crate::digest::Digest;
use crate::numbers::Numbers;
use crate::pattern::BytePattern;
use crate::section::{Job, invalid};
use sd_call_access::{
    AskInput, Asker, AskerInput, Bytes, MAXIMUM, Request, VerdictOutcome, check_many,
    check_with_token, read_token, token_held, told,
};
use sd_check::Verdict;
use std::alloc::{AllocError, Global};
use std::io;

/// FILE_GENERIC_READ.
const WANTED: u32 = 0x12_0089;

/// The numbers that a token of no SIDs has in memory, and those of a SID.
const TOKEN_FRONT: usize = 2;

const TOKEN_ENTRY: usize = 20;

/// Whom the checks are for: the SIDs that the words behind the first are in hex.
#[derive(Drop)]
struct Holder {
    sids: Vec<u8>,
    kinds: Vec<u8>,
}

impl Holder {
    fn new(job: &Job<'_, '_, '_>) -> io::Result<Holder> {
        let mut sids = Vec::new(job.alloc);
        let mut kinds = Vec::new(job.alloc);
        for word in job.words.iter().skip(1) {
            let sid = BytePattern::new(job.alloc, word.as_bytes())?;
            sids.extend_from_slice(sid.bytes())?;
            kinds.push(0)?;
        }
        Ok(Holder { sids, kinds })
    }
}

fn descriptors_of(job: &Job<'_, '_, '_>) -> io::Result<Vec<BytePattern>> {
    let mut descriptors = Vec::new(job.alloc);
    for pattern in job.patterns {
        descriptors.push(BytePattern::new(job.alloc, pattern)?)?;
    }
    Ok(descriptors)
}

/// Checks one right in so many descriptors, each by a call, with a token that was read once.
pub fn check_each(job: &Job<'_, '_, '_>) -> io::Result<Digest> {
    let mut descriptors = descriptors_of(job)?;
    let holder = Holder::new(job)?;
    let numbers_of_token = TOKEN_ENTRY.saturating_mul(holder.kinds.len());
    let mut token = vec![in job.alloc; 0; numbers_of_token.saturating_add(TOKEN_FRONT)]?;
    let mut digest = Digest::new();
    let read = read_token(&holder.sids, &holder.kinds, &mut token);
    digest.add(u64::from(read.fault.value()));
    let request = request(WANTED, false);
    let mut numbers = Numbers::new(job.seed);
    let mut current = 0;
    for _ in 0..job.count {
        if current >= descriptors.len() {
            current = 0;
        }
        let descriptor = descriptors.get_mut(current).ok_or(invalid())?;
        descriptor.renew(&mut numbers);
        // In place: a token that is moved out of its result is copied.
        let verdict = match &mut token_held(&token, &request) {
            Ok(held) => check_with_token(descriptor.bytes(), held, &ask(&request)),
            Err(fault) => told(Err(*fault)),
        };
        add(&mut digest, &verdict);
        current = current.saturating_add(1);
    }
    Ok(digest)
}

/// Finds all that is granted in so many descriptors, all patterns in a call.
pub fn check_together(job: &Job<'_, '_, '_>) -> io::Result<Digest> {
    let mut descriptors = descriptors_of(job)?;
    let holder = Holder::new(job)?;
    let request = request(0, true);
    let asker = AskerInput {
        sids: &holder.sids,
        kinds: &holder.kinds,
        ask: ask(&request),
    };
    let mut verdicts = empty_verdicts(job.alloc, descriptors.len())?;
    let mut numbers = Numbers::new(job.seed);
    let mut digest = Digest::new();
    let calls = job.count.checked_div(descriptors.len() as u64);
    for _ in 0..calls.ok_or(invalid())? {
        for i in 0..descriptors.len() {
            descriptors[i].renew(&mut numbers);
        }
        let mut all = Vec::new(job.alloc);
        for descriptor in &descriptors {
            all.push(Bytes {
                bytes: descriptor.bytes(),
            })?;
        }
        let checked = check_many(job.alloc, &all, &asker, &mut verdicts);
        digest.add(u64::from(checked.fault.value()));
        for verdict in &verdicts {
            add(&mut digest, verdict);
        }
    }
    Ok(digest)
}

fn request(wanted: u32, maximum: bool) -> Request {
    Request {
        asker: Asker {
            mapping: 0,
            level: 0,
            options: 0,
        },
        wanted,
        options: if maximum { MAXIMUM } else { 0 },
    }
}

fn ask<'a>(request: &'a Request) -> AskInput<'a> {
    AskInput {
        object: &[],
        principal_self: &[],
        request,
    }
}

fn empty_verdicts(alloc: Global, count: usize) -> Result<Vec<VerdictOutcome>, AllocError> {
    let mut verdicts = Vec::new(alloc);
    for _ in 0..count {
        verdicts.push(told(Ok(Verdict::Denied(0))))?;
    }
    Ok(verdicts)
}

// Adds all that a verdict says.
fn add(digest: &mut Digest, verdict: &VerdictOutcome) {
    add_pair(digest, verdict.outcome.fault.value(), verdict.outcome.part);
    add_pair(digest, verdict.outcome.other_part, verdict.outcome.argument);
    digest.add(verdict.outcome.entry as u64);
    add_pair(digest, verdict.mask, u32::from(verdict.granted));
}

fn add_pair(digest: &mut Digest, first: u32, second: u32) {
    digest.add(u64::from(first) + (u64::from(second) << 32));
}
