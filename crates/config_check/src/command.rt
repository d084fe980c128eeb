//! The command by its word.

ghost use Rattle.std.specs.Prelude.{◌≡◌, ◌≢◌, ◌≤◌, ◌↔◌, ◌∷◌, [], ℕ, List, length, map, string_bytes, IfErr, IsErrAnd};
ghost use Rattle.sg_outside.specs.Files.{largest_file};
ghost use Rattle.command_line.specs.Run.{Counted, EndsAbsent, EndsLoaded, HasFile, HasNoFile, Prints};
ghost use Rattle.config_check.specs.Run as spec;
ghost use Rattle.config_check.specs.Line.{verdict_line};
ghost use Rattle.config_check.specs.Run.{EndsVerdict, IsFoundVerdict, PrintsVerdict};

use crate::line::line_of;
use crate::verdict::{Verdict, verdict_of};
use command_line::{Status, load, print};
use sg_history::Why;
use sg_outside::{Bytes, Files, Sink};
use std::alloc::Global;

/// The number of the configuration among the command's files.
const CONFIG: u64 = 1;

/// How the run ends that said a verdict.
fn status_of(verdict: Verdict) -> Status
    ensures { result ≡ spec.verdict_status verdict }
{
    match verdict {
        Verdict::Good => Status::Ok,
        Verdict::Long => Status::BadInput {
            file: CONFIG,
            place: 0,
            why: Why::Long,
        },
        Verdict::Bad(refusal) => Status::BadInput {
            file: CONFIG,
            place: 0,
            why: Why::Config {
                path: refusal.path,
                why: refusal.why,
            },
        },
    }
}

/// What is said of a configuration that was loaded.
fn verdict_on(alloc: Global, bytes: Bytes) -> Result<Verdict, Status>
    ensures found { length bytes ≤ largest_file → IsFoundVerdict bytes result }
    ensures memory { IfErr result (λ status. status ≡ Status.Memory) }
{
    let found = verdict_of(alloc, bytes.as_slice());
    drop(bytes);
    match found {
        Ok(verdict) => Ok(verdict),
        Err(_) => Err(Status::Memory),
    }
}

/// What is said of the configuration in a file.
fn verdict_in<F: Files>(alloc: Global, files: &mut F, path: &str) -> Result<Verdict, Status>
    ensures recorded { (bytes : List ℕ) → HasFile (F.recorded files.old) path.now bytes
        → IsFoundVerdict bytes result }
    ensures absent { HasNoFile (F.recorded files.old) path.now → IsErrAnd result EndsAbsent }
    ensures loaded { EndsLoaded result (F.faults files.old) (F.faults files.new) }
    ensures kept { F.recorded files.new ≡ F.recorded files.old }
{
    match load(alloc, files, path, CONFIG) {
        Ok(bytes) => verdict_on(alloc, bytes),
        Err(Status::BadInput { .. }) => Ok(Verdict::Long),
        Err(status) => Err(status),
    }
}

/// Prints the line that says a verdict.
fn print_line<O: Sink>(alloc: Global, verdict: &Verdict, out: &mut O) -> Status
    ensures { Prints result (verdict_line verdict.now)
        (O.faults out.old) (O.faults out.new) (O.taken out.old) (O.taken out.new) }
{
    match line_of(alloc, verdict) {
        Ok(line) => print(line.as_slice(), out),
        Err(_) => Status::Memory,
    }
}

/// Prints a verdict, and ends as it wants.
#[tactic(auto, using(crate::proofs::Runs::told, crate::proofs::Runs::broken_off))]
fn print_verdict<O: Sink>(alloc: Global, verdict: Verdict, out: &mut O) -> Status
    ensures { PrintsVerdict result verdict
        (O.faults out.old) (O.faults out.new) (O.taken out.old) (O.taken out.new) }
{
    match print_line(alloc, &verdict, out) {
        Status::Ok => status_of(verdict),
        status => {
            drop(verdict);
            status
        }
    }
}

/// Says whether the configuration in a file is good, and else what is wrong with it, and where.
#[tactic(auto, using(crate::proofs::Runs::print_counted, crate::proofs::Runs::print_words))]
fn check<F: Files, O: Sink>(alloc: Global, path: &str, files: &mut F, out: &mut O) -> Status
    ensures ends { (bytes : List ℕ) → HasFile (F.recorded files.old) path.now bytes
        → EndsVerdict result bytes (O.taken out.old) (O.taken out.new) }
    ensures absent { HasNoFile (F.recorded files.old) path.now
        → EndsAbsent result × (O.taken out.new ≡ O.taken out.old) }
    ensures words { result ≢ Status.BadWords }
    ensures counted { Counted result (F.faults files.old) (F.faults files.new)
        (O.faults out.old) (O.faults out.new) }
    ensures kept { F.recorded files.new ≡ F.recorded files.old }
{
    match verdict_in(alloc, files, path) {
        Ok(verdict) => print_verdict(alloc, verdict, out),
        Err(status) => status,
    }
}

/// Runs the command: the words are those after the program's name, of which there is to be one, the path of a configuration. Of a
/// good configuration it prints `good`; else the first bad member and why it is bad, and of a sync function's text also where it is
/// refused, and why.
pub fn run<F: Files, O: Sink>(alloc: Global, words: &[String], files: &mut F, out: &mut O) -> Status
    // One word is wanted, and no file is read before.
    ensures words { (result ≡ Status.BadWords) ↔ (length words.now ≢ 1) }
    ensures untouched { length words.now ≢ 1 → (files.new ≡ files.old) × (out.new ≡ out.old) }
    // The line says what the bytes of the file are, and the status follows it.
    ensures ends { (path bytes : List ℕ) → map (λ w. string_bytes w) words.now ≡ path ∷ []
        → HasFile (F.recorded files.old) path bytes
        → EndsVerdict result bytes (O.taken out.old) (O.taken out.new) }
    ensures absent { (path : List ℕ) → map (λ w. string_bytes w) words.now ≡ path ∷ []
        → HasNoFile (F.recorded files.old) path
        → EndsAbsent result × (O.taken out.new ≡ O.taken out.old) }
    ensures counted { Counted result (F.faults files.old) (F.faults files.new)
        (O.faults out.old) (O.faults out.new) }
    ensures kept { F.recorded files.new ≡ F.recorded files.old }
{
    match words {
        [path] => check(alloc, path.as_str(), files, out),
        _ => Status::BadWords,
    }
}
