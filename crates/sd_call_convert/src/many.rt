//! The calls that convert the rows of a column.

ghost use Rattle.std.specs.Prelude.{◌≡◌, ◌≤◌, ◌<◌, ◌+◌, ◌^◌, length, map, take};
ghost use Rattle.sd_call.specs.Columns.{numbers};
ghost use Rattle.sd_call_convert.specs.Many.{ConvertsAll, ConvertsMany, Ends, Holds, answers_by, asked, asked_large};
ghost use Rattle.sd_call_convert.specs.Many.{lent, most_small, stopped};
ghost use Rattle.sd_call_convert.specs.Inner.Column.{asked_any};

use crate::ends::{Offset, write_ends};
use crate::row::{Manner, Room, convert_row, has_room, manner_for};
use sd_buffer::SdBuf;
use sd_call::{Column, Offsets, Outcome, done, failed, no_memory, row_count, too_small};
use sd_sink::NoMemory;
use std::alloc::Global;

/// Offsets of 32 bits have a sign in Arrow, so they reach no further.
const MOST_SMALL: usize = 0x7FFF_FFFF;

/// A column with offsets of 32 bits: `struct sdtool_conversion` of the header.
#[repr(C)]
#[derive(Clone, Copy)]
pub struct Conversion<'a> {
    pub data: &'a [u8],
    pub offsets: &'a [u32],
    pub domain: &'a [u8],
    /// Where in the output the first answer begins.
    pub begin: usize,
    pub kind: u32,
    pub options: u32,
}

/// A column with offsets of 64 bits: `struct sdtool_large_conversion` of the header.
#[repr(C)]
#[derive(Clone, Copy)]
pub struct LargeConversion<'a> {
    pub data: &'a [u8],
    pub offsets: &'a [u64],
    pub domain: &'a [u8],
    /// Where in the output the first answer begins.
    pub begin: usize,
    pub kind: u32,
    pub options: u32,
}

// A conversion, whichever size its offsets have.
#[derive(Clone, Copy)]
struct AnyConversion<'a> {
    column: Column<'a>,
    domain: &'a [u8],
    begin: usize,
    kind: u32,
    options: u32,
}

/// Converts each row of a column with offsets of 32 bits.
pub fn convert_many(
    alloc: Global,
    conversion: &Conversion<'_>,
    out: &mut [u8],
    out_offsets: &mut [u32],
    outcomes: &mut [Outcome],
) -> Outcome
    ensures { ConvertsMany (asked conversion.now) (lent (take most_small out.old) out_offsets.old outcomes.old)
        (lent (take most_small out.new) out_offsets.new outcomes.new) result }
{
    let any = AnyConversion {
        column: Column {
            data: front_of(conversion.data),
            offsets: Offsets::Small(conversion.offsets),
        },
        domain: conversion.domain,
        begin: conversion.begin,
        kind: conversion.kind,
        options: conversion.options,
    };
    let size = MOST_SMALL.min(out.len());
    convert_column(alloc, &any, &mut out[..size], out_offsets, outcomes)
}

// What these offsets can reach.
fn front_of(bytes: &[u8]) -> &[u8]
    ensures { result.now ≡ take most_small bytes.now }
{
    &bytes[..MOST_SMALL.min(bytes.len())]
}

/// Converts each row of a column with offsets of 64 bits.
pub fn convert_many_large(
    alloc: Global,
    conversion: &LargeConversion<'_>,
    out: &mut [u8],
    out_offsets: &mut [u64],
    outcomes: &mut [Outcome],
) -> Outcome
    ensures { ConvertsMany (asked_large conversion.now) (lent out.old out_offsets.old outcomes.old)
        (lent out.new out_offsets.new outcomes.new) result }
{
    let any = AnyConversion {
        column: Column {
            data: conversion.data,
            offsets: Offsets::Large(conversion.offsets),
        },
        domain: conversion.domain,
        begin: conversion.begin,
        kind: conversion.kind,
        options: conversion.options,
    };
    convert_column(alloc, &any, out, out_offsets, outcomes)
}

fn convert_column<T: Offset>(
    alloc: Global,
    conversion: &AnyConversion<'_>,
    out: &mut [u8],
    out_offsets: &mut [T],
    outcomes: &mut [Outcome],
) -> Outcome
    requires reaches { length out.old ≤ T.most }
    requires fits { length out.old < 2 ^ 64 }
    ensures { ConvertsMany (asked_any conversion.now) (lent out.old (map T.number out_offsets.old) outcomes.old)
        (lent out.new (map T.number out_offsets.new) outcomes.new) result }
{
    let room = Room {
        bytes: out.len(),
        offsets: out_offsets.len(),
        outcomes: outcomes.len(),
    };
    let count = offset_count(conversion.column.offsets);
    let enough = has_room(count, conversion.begin, &room);
    match manner_for(
        conversion.kind,
        conversion.options,
        conversion.domain,
        enough,
    ) {
        Ok(manner) => {
            let work = Work {
                column: conversion.column,
                manner,
                begin: conversion.begin,
            };
            convert_all(&work, SdBuf::new(alloc), out, out_offsets, outcomes)
        }
        Err(fault) => failed(fault),
    }
}

fn offset_count(offsets: Offsets<'_>) -> usize
    ensures { result ≡ length (numbers offsets.entry) }
{
    match offsets {
        Offsets::Small(numbers) => numbers.len(),
        Offsets::Large(numbers) => numbers.len(),
    }
}

/// A column whose rows are converted, the first answer to this place.
#[derive(Clone, Copy)]
struct Work<'a> {
    column: Column<'a>,
    manner: Manner,
    begin: usize,
}

/// How many rows are answered, and what the call tells.
#[derive(Clone, Copy)]
struct Ending {
    count: usize,
    outcome: Outcome,
}

fn convert_all<T: Offset>(
    work: &Work<'_>,
    buf: Result<SdBuf, NoMemory>,
    out: &mut [u8],
    out_offsets: &mut [T],
    outcomes: &mut [Outcome],
) -> Outcome
    requires reaches { length out.old ≤ T.most }
    requires fits { length out.old < 2 ^ 64 }
    requires some { 0 < length (numbers work.now.column.offsets) }
    requires offsets { length (numbers work.now.column.offsets) ≤ length out_offsets.old }
    requires outcomes { length (numbers work.now.column.offsets) ≤ length outcomes.old + 1 }
    requires begin { work.now.begin ≤ length out.old }
    ensures { ConvertsAll (answers_by work.now.manner work.now.column.data.now (numbers work.now.column.offsets))
        work.now.begin (lent out.old (map T.number out_offsets.old) outcomes.old)
        (lent out.new (map T.number out_offsets.new) outcomes.new) result }
{
    match buf {
        Ok(mut buf) => {
            let ending = convert_rows(work, &mut buf, out, outcomes);
            write_ends(work.begin, &outcomes[..ending.count], out_offsets);
            ending.outcome
        }
        Err(refused) => no_memory(refused),
    }
}

// Converts the rows, as far as there is room.
fn convert_rows(
    work: &Work<'_>,
    buf: &mut SdBuf,
    out: &mut [u8],
    outcomes: &mut [Outcome],
) -> Ending
    requires some { 0 < length (numbers work.now.column.offsets) }
    requires room { length (numbers work.now.column.offsets) ≤ length outcomes.old + 1 }
    requires begin { work.now.begin ≤ length out.old }
    ensures held { Holds (answers_by work.now.manner work.now.column.data.now (numbers work.now.column.offsets))
        work.now.begin out.old out.new outcomes.old outcomes.new result.count }
    ensures ending { Ends (answers_by work.now.manner work.now.column.data.now (numbers work.now.column.offsets))
        work.now.begin (length out.old) result.count result.outcome }
{
    let mut at = work.begin;
    let rows = row_count(&work.column);
    for i in 0..rows {
        let room = out.len() - at;
        let outcome = convert_row(&work.column, i, &work.manner, buf, &mut out[at..]);
        let size = outcome.length;
        // Only an answer that has no room tells a length beyond it.
        if size > room {
            return Ending {
                count: i,
                outcome: stopped(i, size),
            };
        }
        outcomes[i] = outcome;
        at += size;
    }
    Ending {
        count: rows,
        outcome: done(at),
    }
}

// The output has no room for the answer of this row, which has so many bytes.
fn stopped(row: usize, size: usize) -> Outcome
    ensures { result ≡ stopped row size }
{
    Outcome {
        entry: row,
        ..too_small(size)
    }
}
