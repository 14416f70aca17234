//! The answer to a line.

ghost use Rattle.std.specs.Prelude.{◌≡◌, ℕ, List, [], ◌∷◌, ◌++◌, true, false, Ok, Err, MatchResult};
ghost use Rattle.base64.specs.Engines.{standard};
ghost use Rattle.base64.specs.GeneralPurpose.{encode_of};
ghost use Rattle.hex.specs.Hex.{encode_lower};
ghost use Rattle.sd_sink.specs.Print.{Prints};
ghost use Rattle.sd_sink.specs.Sink.{Puts};
ghost use Rattle.sd_view.specs.Descriptor.{Descriptor, Shows};
ghost use Rattle.sd_view.specs.Layout.{layout};
ghost use Rattle.sd_view.specs.WrittenForm.{IsWrittenForm};
ghost use Rattle.sd_token.specs.Token.{Compares, Holder};
ghost use Rattle.sd_explain.specs.Explain.{explain};
ghost use Rattle.sd_sddl_printer.specs.Printed.{sddl};
ghost use Rattle.sd_answer.specs.Answer.{act_outcome, answer, bound, form_text, is_error};
ghost use Rattle.sd_answer.specs.Answer.{naming_of, refused, verdict_text};
ghost use Rattle.sd_answer.specs.Inner.Printing.{PrintsAnswer};
ghost use Rattle.sd_answer.specs.LineEnd.{line_feed};
ghost use Rattle.sd_answer.specs.LineInHand.{HoldsText, IsReady, PutsAnswer};

use crate::base64_text::print_as_base64;
use crate::hex_text::{SPELLED, print_as_hex, put_as_hex};
use crate::job::{Act, Job, OutputForm, Task};
use crate::line::Line;
use sd_buffer::SdBuf;
use sd_builder::write_layout;
use sd_check::{Verdict, check};
use sd_explain::print_explain;
use sd_faults::{LineFault, print_fault};
use sd_inherit::derive;
use sd_sddl_printer::print_sddl;
use sd_sink::{Gather, Print, Sink, SinkFault};
use sd_text::print_hex;
use sd_token::Token;
use sd_view::{SdView, view_written};

/// What an answer is made in: a layout that has to be written, and a piece of the text that spells it.
#[derive(Drop)]
pub struct Stores {
    pub written: SdBuf,
    pub spelled: [u8; SPELLED],
}

impl Stores {
    /// Stores over this buffer, whatever it holds.
    pub fn over(written: SdBuf) -> Stores {
        Stores {
            written,
            spelled: [0; SPELLED],
        }
    }
}

/// Puts the answer to the line in hand, with its LF. Returns whether it is an `error` line. Small texts are gathered.
pub fn put_answer<S: Sink>(
    task: &Task<'_>,
    line: &mut Line,
    stores: &mut Stores,
    token: &mut Token,
    sink: &mut S,
) -> Result<bool, SinkFault>
    requires { IsReady line.old }
    ensures put { (text : List ℕ) → HoldsText task.now.job line.old text
        → PutsAnswer (S.told sink.old) (S.told sink.new)
        (answer task.now token.old.holder text) (is_error task.now token.old.holder text) result }
    ensures holder { token.new.holder ≡ token.old.holder }
    ensures compared { (text : List ℕ) → HoldsText task.now.job line.old text
        → Compares token.old token.new (bound task.now token.old.holder text) }
{
    if let Act::Convert(OutputForm::Hex) = task.job.act {
        return put_hex_answer(task, line, stores, sink);
    }
    let mut out = Gather::new(sink);
    let faulty = print_answer(task, line, stores, token, &mut out);
    out.finish()?;
    Ok(faulty)
}

// The same where the answer is hex, whose pieces are large enough to be put one by one.
fn put_hex_answer<S: Sink>(
    task: &Task<'_>,
    line: &mut Line,
    stores: &mut Stores,
    sink: &mut S,
) -> Result<bool, SinkFault>
    requires ready { IsReady line.old }
    requires hex { task.now.job.act ≡ Act.Convert OutputForm.Hex }
    ensures { (holder : Holder) (text : List ℕ) → HoldsText task.now.job line.old text
        → PutsAnswer (S.told sink.old) (S.told sink.new)
        (answer task.now holder text) (is_error task.now holder text) result }
{
    // Only the contract names the task.
    let _ = task;
    if line.is_too_long() {
        return put_error(&LineFault::TooLong, sink);
    }
    if line.is_empty() {
        return unless_failed(sink.put(b"\n"));
    }
    match line.end() {
        Ok(view) => unless_failed(put_layout_as_hex(&view, stores, sink)),
        Err(fault) => put_error(&fault, sink),
    }
}

// Puts the layout of a descriptor as hex, with an LF behind it.
fn put_layout_as_hex<S: Sink>(
    view: &SdView<'_>,
    stores: &mut Stores,
    sink: &mut S,
) -> Result<(), SinkFault>
    ensures { Puts (S.told sink.old) (S.told sink.new) (encode_lower (layout view.now) ++ line_feed ∷ []) result }
{
    match view.laid_out() {
        Some(bytes) => put_as_hex(bytes, &mut stores.spelled, sink),
        None => {
            write_layout(view, &mut stores.written);
            put_as_hex(stores.written.bytes(), &mut stores.spelled, sink)
        }
    }
}

// What is returned where this came of the calls of a sink for an answer that is no `error` line.
fn unless_failed(put: Result<(), SinkFault>) -> Result<bool, SinkFault>
    ensures { MatchResult put (λ _. result ≡ Ok false) (λ fault. result ≡ Err fault) }
{
    match put {
        Ok(()) => Ok(false),
        Err(fault) => Err(fault),
    }
}

// Puts an `error` line.
#[cold]
#[inline(never)]
fn put_error<S: Sink>(fault: &LineFault, sink: &mut S) -> Result<bool, SinkFault>
    ensures { PutsAnswer (S.told sink.old) (S.told sink.new) (refused fault.now).text true result }
{
    let mut out = Gather::new(sink);
    let error = print_error(fault, &mut out);
    out.finish()?;
    Ok(error)
}

// A line over its limit was not read, so that is its only error.
fn print_answer<P: Print>(
    task: &Task<'_>,
    line: &mut Line,
    stores: &mut Stores,
    token: &mut Token,
    out: &mut P,
) -> bool
    requires { IsReady line.old }
    ensures printed { (text : List ℕ) → HoldsText task.now.job line.old text
        → PrintsAnswer (P.told out.old) (P.told out.new)
        (answer task.now token.old.holder text) (is_error task.now token.old.holder text) result }
    ensures holder { token.new.holder ≡ token.old.holder }
    ensures compared { (text : List ℕ) → HoldsText task.now.job line.old text
        → Compares token.old token.new (bound task.now token.old.holder text) }
{
    if line.is_too_long() {
        return print_error(&LineFault::TooLong, out);
    }
    if line.is_empty() {
        return print_end(false, out);
    }
    match line.end() {
        Ok(view) => print_act(task, &view, stores, token, out),
        Err(fault) => print_error(&fault, out),
    }
}

// Prints an `error` line.
fn print_error<P: Print>(fault: &LineFault, out: &mut P) -> bool
    ensures { PrintsAnswer (P.told out.old) (P.told out.new) (refused fault.now).text true result }
{
    print_fault(fault, out);
    print_end(true, out)
}

// Prints what is answered to a descriptor.
fn print_act<P: Print>(
    task: &Task<'_>,
    view: &SdView<'_>,
    stores: &mut Stores,
    token: &mut Token,
    out: &mut P,
) -> bool
    ensures printed { PrintsAnswer (P.told out.old) (P.told out.new)
        (act_outcome task.now token.old.holder task.now.job.act view.now).text
        (act_outcome task.now token.old.holder task.now.job.act view.now).is_error result }
    ensures holder { token.new.holder ≡ token.old.holder }
    ensures compared { Compares token.old token.new
        (act_outcome task.now token.old.holder task.now.job.act view.now).bound }
{
    let job = &task.job;
    match job.act {
        Act::Convert(form) => {
            print_form(job, form, view, stores, out);
            print_end(false, out)
        }
        Act::Explain => {
            print_explanation(job, view, out);
            false
        }
        Act::Check(ask) => {
            print_verdict(check(view, token, &ask), out);
            print_end(false, out)
        }
        Act::Derive(plan, form) => {
            match derive(view, task.creator.as_ref(), &plan, &mut stores.written) {
                Ok(()) => {
                    print_written(job, form, stores, out);
                    print_end(false, out)
                }
                Err(fault) => print_error(&LineFault::Derive(fault), out),
            }
        }
    }
}

// Prints a descriptor in a form, from where it is read.
#[tactic(auto, unfolding(crate::specs::Answer::form_text))]
fn print_form<P: Print>(
    job: &Job,
    form: OutputForm,
    view: &SdView<'_>,
    stores: &mut Stores,
    out: &mut P,
)
    ensures { Prints (P.told out.old) (P.told out.new) (form_text job.now form view.now) }
{
    match form {
        OutputForm::Hex => {
            write_layout(view, &mut stores.written);
            print_as_hex(stores.written.bytes(), &mut stores.spelled, out);
        }
        OutputForm::Base64 => print_layout_as_base64(view, stores, out),
        OutputForm::Sddl => print_as_sddl(job, view, out),
    }
}

// Prints the layout of a descriptor as base64.
fn print_layout_as_base64<P: Print>(view: &SdView<'_>, stores: &mut Stores, out: &mut P)
    ensures { Prints (P.told out.old) (P.told out.new) (encode_of standard (layout view.now)) }
{
    match view.laid_out() {
        Some(bytes) => print_as_base64(bytes, &mut stores.spelled, out),
        None => {
            write_layout(view, &mut stores.written);
            print_as_base64(stores.written.bytes(), &mut stores.spelled, out);
        }
    }
}

// Prints the descriptor that was written into the buffer, in a form.
#[tactic(auto, unfolding(crate::specs::Answer::form_text))]
fn print_written<P: Print>(job: &Job, form: OutputForm, stores: &mut Stores, out: &mut P)
    requires { IsWrittenForm stores.old.written }
    ensures { (d : Descriptor) → Shows stores.old.written d → stores.old.written ≡ layout d
        → Prints (P.told out.old) (P.told out.new) (form_text job.now form d) }
{
    match form {
        OutputForm::Hex => print_as_hex(stores.written.bytes(), &mut stores.spelled, out),
        OutputForm::Base64 => print_as_base64(stores.written.bytes(), &mut stores.spelled, out),
        OutputForm::Sddl => print_as_sddl(job, &view_written(stores.written.bytes()), out),
    }
}

// Prints a descriptor as SDDL.
fn print_as_sddl<P: Print>(job: &Job, view: &SdView<'_>, out: &mut P)
    ensures { Prints (P.told out.old) (P.told out.new) (sddl (naming_of job.now) view.now) }
{
    print_sddl(view, job.domain.as_ref(), job.numeric, out);
}

// Prints what a descriptor has, on lines that each have an LF already.
fn print_explanation<P: Print>(job: &Job, view: &SdView<'_>, out: &mut P)
    ensures { Prints (P.told out.old) (P.told out.new) (explain (naming_of job.now) view.now) }
{
    print_explain(view, job.domain.as_ref(), job.numeric, out);
}

// Prints a verdict: its word, and its mask in eight hex digits.
fn print_verdict<P: Print>(verdict: Verdict, out: &mut P)
    ensures { Prints (P.told out.old) (P.told out.new) (verdict_text verdict) }
{
    match verdict {
        Verdict::Granted(mask) => {
            out.put(b"granted 0x");
            print_hex(8, u64::from(mask), out);
        }
        Verdict::Denied(mask) => {
            out.put(b"denied 0x");
            print_hex(8, u64::from(mask), out);
        }
    }
}

// Ends a line.
fn print_end<P: Print>(faulty: bool, out: &mut P) -> bool
    ensures { PrintsAnswer (P.told out.old) (P.told out.new) (line_feed ∷ []) faulty result }
{
    out.put(b"\n");
    faulty
}
