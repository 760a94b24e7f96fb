//! Shows the results of the bidirectional algorithm: the visual order of levels, `bidi_show map <level>..`, and the
//! paragraphs of a text, `bidi_show show auto`, or their lines, `bidi_show lines auto 40`. The base level may also be
//! `ltr` or `rtl`.
#![tactic(auto)]

ghost use Rattle.std.specs.Prelude.{◌≡◌, IfErr};
ghost use Rattle.bidi_show_run.specs.declared.fault.ShowFault.TheVariants.{Device};

use bidi_show_run::{ShowFault, run_over_streams};
use std::process::ExitCode;
use std::rt::Env;
use std::{env, io};

// Returns the arguments after the program's name.
fn arguments(rt: &(impl Env + AllocGlobal)) -> Result<Vec<String>, ShowFault>
    ensures { IfErr result (λ fault. fault ≡ Device) }
{
    let Ok(words) = env::args(rt) else {
        return Err(ShowFault::Device);
    };
    words
        .skip(1)
        .collect(rt.alloc())
        .map_err(|_| ShowFault::Device)
}

fn serve(rt: &(impl Env + Input + Print + AllocGlobal)) -> Result<(), ShowFault> {
    let words = arguments(rt)?;
    let run = run_over_streams(rt.alloc(), words.as_slice(), rt.reader(), io::writer(rt));
    run.outcome
}

fn main(rt: HostRuntime) -> ExitCode {
    match serve(&rt) {
        Ok(()) => ExitCode::SUCCESS,
        Err(fault) => {
            let _ = eprintln!(rt; "bidi_show: {fault}");
            ExitCode::from(fault.status())
        }
    }
}
