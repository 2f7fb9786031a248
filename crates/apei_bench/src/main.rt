//! Work for the scripts in `bench/`: `apei_bench JOB TIMES` does one job many times, and prints what it counted. Beside it stand tests by
//! bytes from outside.
#![tactic(auto)]

mod clients;
mod frames;
mod handovers;
mod lines;
mod machines;
mod programs;
mod tables;
#[cfg(test)]
mod tests;

use std::alloc::Global;
use std::env;
use std::process::ExitCode;

fn main(rt: HostRuntime) -> ExitCode {
    match counted(&rt) {
        Some(count) => {
            let _ = println!(rt; "{count}");
            ExitCode::SUCCESS
        }
        None => ExitCode::FAILURE,
    }
}

// What the job that the words ask for counted; `None` where they ask for none, or it could not be done.
fn counted(rt: &HostRuntime) -> Option<u64> {
    let words: Vec<String> = env::args(rt).ok()?.skip(1).collect(rt.alloc()).ok()?;
    match words.as_slice() {
        [job, times] => done(rt.alloc(), job.as_str(), times.as_str().parse().ok()?),
        _ => None,
    }
}

fn done(alloc: Global, job: &str, times: u64) -> Option<u64> {
    match job {
        "goto" => programs::go_round(alloc, times),
        "short" => programs::go_round_table(alloc, 2, times),
        "long" => programs::go_round_table(alloc, 1000, times),
        "move" => programs::move_bytes(alloc, times),
        "dummies" => clients::write_dummies(alloc, times),
        "records" => frames::read_records(alloc, times),
        "blocks" => frames::walk_blocks(times),
        "handover" => handovers::hand_over(alloc, times),
        "turns" => handovers::hand_over_by_turns(alloc, times),
        "submits" => handovers::submit_blocks(alloc, times),
        "copies" => handovers::copy_twice(times),
        "pieces" => handovers::copy_by_pieces(alloc, times),
        "apart" => handovers::copy_by_calls(alloc, times),
        "writes" => machines::write_by_programs(alloc, times),
        "calls" => machines::write_by_calls(alloc, times),
        "accesses" => machines::use_memory(alloc, times),
        "boots" => machines::boot(alloc, times),
        "openings" => machines::open(alloc, times),
        "lines" => lines::parse_lines(times),
        "readings" => lines::read_lines(times),
        _ => None,
    }
}
