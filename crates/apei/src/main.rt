//! Plays scripts of a machine's error record store: `apei sim` on a simulated flash, `apei play --image PATH` on one in a file. `apei gen`
//! plays a script of its own making, `apei check` shows tables, records and blocks, and `apei hub` plays a script on several error sources. A script is read from standard input, and the
//! replies are written to standard output.
#![tactic(auto)]

use apei_bytes::{StdSink, StdSource};
use apei_cli::{Plan, Status, WordsError, plan, run, sim_flash};
use apei_notify::{Listener, Tally};
use clap_words::{end, words};
use file_flash::FileFlash;
use flash_model::{Flash, Geometry};
use std::process::ExitCode;

fn main(rt: HostRuntime) -> ExitCode {
    let status = play(&rt).unwrap_or_else(|error| Status::from(error));
    end(&rt, &status, status.number())
}

// Does what the words behind the program's name ask for.
fn play(rt: &HostRuntime) -> Result<Status, WordsError> {
    let words = words(rt)?;
    let plan = plan(rt.alloc(), &words)?;
    if let Some((path, geometry)) = image_of(&plan) {
        let sector = geometry.sector() as u32;
        let flash = FileFlash::attach(rt, rt.alloc(), path, sector, geometry.size());
        return Ok(play_on(rt, &words, flash));
    }
    match sim_flash(rt.alloc(), &plan) {
        Ok(flash) => Ok(play_on(rt, &words, flash)),
        Err(_) => Ok(Status::Memory),
    }
}

// The path of the image that a plan plays on, and its geometry. Where that is outside its limits no file is touched.
fn image_of(plan: &Plan) -> Option<(&str, Geometry)> {
    let path = plan.image.as_ref()?;
    let geometry = Geometry::new(plan.sector, plan.per_slot, plan.slots).ok()?;
    Some((path.as_str(), geometry))
}

// Does it on a flash.
fn play_on<F: Flash + Drop>(rt: &HostRuntime, words: &[String], flash: F) -> Status {
    // One hears of all errors, one of the fatal ones, and one of those that were corrected.
    let mut listeners: Vec<Box<dyn Listener>> = Vec::new(rt.alloc());
    for severities in [15, 2, 4] {
        let Ok(listener) = Box::new(rt.alloc(), Tally::new(severities)) else {
            return Status::Memory;
        };
        if listeners.push(listener).is_err() {
            return Status::Memory;
        }
    }
    let mut script = StdSource::new(rt.stdin());
    let mut out = StdSink::new(rt.stdout());
    let (status, _, _) = run(rt.alloc(), words, &mut script, &mut out, flash, listeners);
    status
}
