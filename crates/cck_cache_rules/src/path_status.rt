//! What the system said of a file or a directory when an entry was recorded.
ghost use Rattle.std.specs.Prelude.{◌≡◌, ◌++◌, ◌<◌, IfOk, MatchOption, OnOk, length};
ghost use Rattle.std.specs.Int.{cast_signed, w64};
ghost use Rattle.std.specs.Option.{option_map};
ghost use Rattle.cck_digest.specs.Frames.{length_bytes};
ghost use Rattle.cck_include.specs.TimePart.{i64_bytes, u32_bytes};
ghost use Rattle.cck_cache_rules.specs.PathStatus.{IsStatus, status_bytes, status_lent, status_of, time_bytes};
ghost use Rattle.cck_cache_rules.specs.Reading.{ReadsBackOf};

use crate::frames::{number_bytes, read_number};
use crate::path_test::after;
use cck_path::Timestamp;
use std::alloc::{AllocError, Global};

/// How the bytes of a status begin.
const STATUS: &[u8] = b"status ";

const NANOS_IN_A_SECOND: u32 = 1_000_000_000;

/// What the system said of a file or a directory: which one it is, and when it was last changed.
#[derive(Drop)]
pub struct PathStatus {
    /// The path.
    pub path: Vec<u8>,
    /// The device that it is on.
    pub device: u64,
    /// The number of its inode there.
    pub inode: u64,
    /// When its contents were last modified.
    pub modified: Timestamp,
    /// When its inode was last changed.
    pub changed: Timestamp,
}

// A status whose path is borrowed.
#[derive(Clone, Copy)]
struct StatusRef<'a> {
    path: &'a [u8],
    device: u64,
    inode: u64,
    modified: Timestamp,
    changed: Timestamp,
}

// The 8 bytes of the seconds of a time.
#[tactic(auto, unfolding(cck_include::specs::TimePart::i64_bytes))]
fn seconds_bytes(time: Timestamp) -> [u8; 8]
    ensures { result ≡ i64_bytes time.seconds }
{
    let seconds = time.seconds();
    seconds.to_le_bytes()
}

// The 4 bytes of its nanoseconds.
#[tactic(auto, unfolding(cck_include::specs::TimePart::u32_bytes))]
fn nanoseconds_bytes(time: Timestamp) -> [u8; 4]
    ensures { result ≡ u32_bytes time.nanoseconds }
{
    let nanoseconds = time.nanoseconds();
    nanoseconds.to_le_bytes()
}

// Appends the bytes of a time.
fn push_time(all: &mut Vec<u8>, time: Timestamp) -> Result<(), AllocError>
    ensures { OnOk result (all.new.items ≡ all.old.items ++ time_bytes time) }
{
    all.extend_from_slice(&seconds_bytes(time))?;
    all.extend_from_slice(&nanoseconds_bytes(time))?;
    Ok(())
}

// The two numbers of a time at the beginning of these bytes, and the bytes after them. `None` where
// there are fewer than 12.
fn read_time(bytes: &[u8]) -> Option<((u64, u32), &[u8])>
    ensures { MatchOption result (length bytes.now < 12)
        (λ r. bytes.now ≡ length_bytes r.0.0 ++ (u32_bytes r.0.1 ++ r.1.now)) }
{
    let (seconds, rest) = read_number(bytes)?;
    let (nanoseconds, rest) = rest.split_first_chunk::<4>()?;
    Some(((seconds, u32::from_le_bytes(*nanoseconds)), rest))
}

// The time of these numbers, the first of which is in two's complement.
fn time_of(numbers: (u64, u32)) -> Timestamp
    requires { numbers.1 < 1000000000 }
    ensures { result ≡ record { seconds = cast_signed w64 numbers.0; nanoseconds = numbers.1 } }
{
    let (seconds, nanoseconds) = numbers;
    Timestamp::new(seconds.cast_signed(), nanoseconds)
}

// The status that has these bytes.
fn read_status(bytes: &[u8]) -> Option<StatusRef<'_>>
    ensures { ReadsBackOf IsStatus status_bytes bytes.now (option_map status_lent result) }
{
    let (device, rest) = read_number(after(STATUS, bytes)?)?;
    let (inode, rest) = read_number(rest)?;
    let (modified, rest) = read_time(rest)?;
    let (changed, path) = read_time(rest)?;
    if modified.1 >= NANOS_IN_A_SECOND || changed.1 >= NANOS_IN_A_SECOND {
        return None;
    }
    Some(StatusRef {
        path,
        device,
        inode,
        modified: time_of(modified),
        changed: time_of(changed),
    })
}

impl PathStatus {
    /// The bytes of the status in an entry file.
    ///
    /// The only error is lack of memory.
    pub fn write(&self, alloc: Global) -> Result<Vec<u8>, AllocError>
        ensures { IfOk result (λ bytes. bytes.items ≡ status_bytes (status_of self.now)) }
    {
        let mut bytes = STATUS.to_vec(alloc)?;
        bytes.extend_from_slice(&number_bytes(self.device))?;
        bytes.extend_from_slice(&number_bytes(self.inode))?;
        push_time(&mut bytes, self.modified)?;
        push_time(&mut bytes, self.changed)?;
        bytes.extend_from_slice(&self.path)?;
        Ok(bytes)
    }

    /// The status that has these bytes. `None` where no status has.
    ///
    /// The only error is lack of memory.
    pub fn read(alloc: Global, bytes: &[u8]) -> Result<Option<PathStatus>, AllocError>
        ensures { IfOk result (λ found. ReadsBackOf IsStatus status_bytes bytes.now (option_map status_of found)) }
    {
        let Some(status) = read_status(bytes) else {
            return Ok(None);
        };
        Ok(Some(PathStatus {
            path: status.path.to_vec(alloc)?,
            device: status.device,
            inode: status.inode,
            modified: status.modified,
            changed: status.changed,
        }))
    }
}
