//! Does jobs that users of the library wait for, on texts that a seed determines, and prints a digest of all results:
//! `bidi_workloads documents 100 400 7`.
#![tactic(auto)]

mod digest;
mod jobs;
mod languages;
mod random;
mod texts;

use jobs::{Amount, Job};
use std::process::ExitCode;
use std::rt::Env;
use std::{env, io};

const USAGE: &str = "usage: bidi_workloads JOB COUNT SIZE SEED

JOB is documents, lines, messages, controls, sources, hostile, shown, files, or all of them. COUNT is how many
inputs a job has, SIZE how large each is: in paragraphs, messages, lines of a source, or pieces of a hostile
text. SEED, a number below 4294967296, makes them.";

// Returns whether a name means a job.
fn are_meant(name: &str, job: Job) -> bool {
    name == "all" || name == job.name()
}

// Returns the size of a job, given two arguments.
fn amount_of(count: &str, size: &str) -> Option<Amount> {
    Some(Amount {
        count: count.parse::<usize>().ok()?,
        size: size.parse::<usize>().ok()?,
    })
}

// Does the jobs that the arguments ask for. Returns whether the arguments are valid.
fn serve(rt: &(impl Env + Print + AllocGlobal)) -> io::Result<bool> {
    let words: Vec<String> = env::args(rt)?.skip(1).collect(rt.alloc())?;
    let [name, count, size, seed] = words.as_slice() else {
        return Ok(false);
    };
    let Some(amount) = amount_of(count.as_str(), size.as_str()) else {
        return Ok(false);
    };
    let Ok(seed) = seed.as_str().parse::<u32>() else {
        return Ok(false);
    };
    let mut is_known = false;
    for job in jobs::ALL {
        if are_meant(name.as_str(), job) {
            let digest = job.run(rt.alloc(), amount, seed)?;
            let name = job.name();
            println!(rt; "{name} {digest:016x}")?;
            is_known = true;
        }
    }
    Ok(is_known)
}

fn main(rt: HostRuntime) -> ExitCode {
    match serve(&rt) {
        Ok(true) => ExitCode::SUCCESS,
        Ok(false) => {
            let _ = eprintln!(rt; "{USAGE}");
            ExitCode::from(2)
        }
        Err(error) => {
            let _ = eprintln!(rt; "bidi_workloads: {error}");
            ExitCode::from(1)
        }
    }
}
