//! Scripts.
ghost use Rattle.std.specs.Prelude.{◌≡◌, ℕ, List, Some};
ghost use Rattle.sysvmsg.specs.Scripts.{AnswersScript};

use std::io::{Eprint, Read, Write};
use std::process::ExitCode;
use sysv_connect::FAULT;
use sysv_model::Instrumented;
use sysv_script::run_script;

/// Runs the script that `script` returns, and writes its results to `answers`. A fault is reported
/// on standard error.
pub(crate) fn answer_script<R: Read, W: Write>(
    rt: &(impl Eprint + AllocGlobal),
    script: &mut R,
    answers: &mut W,
) -> ExitCode
    ensures { (text : List ℕ) → R.remaining script.old ≡ Some text →
        AnswersScript result text (W.contents answers.old) (W.contents answers.new)
        (R.remaining script.new) }
{
    let mut reader = Instrumented::new(script);
    let mut writer = Instrumented::new(answers);
    match run_script(rt.alloc(), &mut reader, &mut writer) {
        Ok(()) => ExitCode::SUCCESS,
        Err(fault) => {
            let _ = eprintln!(rt; "sysvmsg: {fault}");
            ExitCode::from(FAULT)
        }
    }
}
