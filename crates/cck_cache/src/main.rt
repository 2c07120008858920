//! The program `cck_cache`: a cache of compilations over real files.
//!
//! `main` alone reads the clock, the zone and the environment, and passes them with the words and
//! the standard streams to [`run`]. What fails is printed on standard output as `error: ..`, with
//! status 1, since standard error has the compiler's messages. What is wrong with the words is
//! printed on standard error, with status 2.
//!
//! Each call works on a *snapshot*: the real files that it looks at are read into memory. Keys,
//! look-ups and recordings are calls of `c_cache_keys` over them, over the bytes of one entry and over
//! a text. What is missing from a snapshot can only make a look-up miss or a compilation be refused.
#![tactic(auto)]

mod call;
mod changed;
mod entry_place;
mod environment;
mod included;
mod input;
mod judge;
mod look;
mod naming;
mod outputs;
mod places;
mod program;
mod programs;
mod record;
mod request;
mod response;
mod seal;
mod server_key;
mod store;
mod unpack;
mod wanted;
mod why;

use crate::environment::{
    Environment, compiler_variables, is_passed_on, knows_native, max_size, reads_all,
    search_variables, variables,
};
use crate::program::run;
use anyhow::{Result, bail};
use cck_path::Timestamp;
use jiff::tz::{SystemTimeZone, TimeZoneDatabase};
use std::process::ExitCode;
use std::rt::Clock;
use std::time::{SystemTime, UNIX_EPOCH};
use std::{env, process};

// The time of the system's clock.
fn now<R: Clock>(rt: &R) -> Result<Timestamp> {
    let Ok(since) = SystemTime::now(rt)?.duration_since(UNIX_EPOCH) else {
        bail!("the clock is before 1970");
    };
    let Ok(seconds) = i64::try_from(since.as_secs()) else {
        bail!("the clock is out of range");
    };
    let nanoseconds = since.subsec_nanos();
    if nanoseconds >= 1_000_000_000 {
        bail!("the clock is out of range");
    }
    Ok(Timestamp::new(seconds, nanoseconds))
}

// Reads what the process is given, and runs the program.
fn start(rt: &HostRuntime) -> Result<u8> {
    let alloc = rt.alloc();
    let words = env::args(rt)?.collect::<Vec<String>>(alloc)?;
    let system = SystemTimeZone::read(rt)?;
    let database = TimeZoneDatabase::new(alloc);
    let environment = Environment {
        now: now(rt)?,
        zone: system.time_zone(&database)?,
        variables: variables(rt)?,
        compiler_variables: compiler_variables(rt)?,
        knows_native: knows_native(rt)?,
        reads_all: reads_all(rt)?,
        max_size: max_size(rt)?,
        is_passed_on: is_passed_on(rt)?,
        search: search_variables(rt)?,
        id: process::id(rt.process()),
    };
    let (mut reader, mut writer, mut errors) = (rt.stdin(), rt.stdout(), rt.stderr());
    run(
        rt,
        &environment,
        &words,
        &mut reader,
        &mut writer,
        &mut errors,
    )
}

fn main(rt: HostRuntime) -> Result<ExitCode> {
    match start(&rt) {
        Ok(status) => Ok(ExitCode::from(status)),
        Err(error) => {
            println!(rt; "error: {error:#}")?;
            Ok(ExitCode::from(1))
        }
    }
}
