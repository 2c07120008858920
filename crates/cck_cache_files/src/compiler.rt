//! The programs that a compilation runs.
ghost use Rattle.std.specs.Prelude.{◌≡◌, ◌⊎◌, ℕ, List, IfOk, IfSome, IsTrue, MatchOption, string_bytes};
ghost use Rattle.cck_digest.specs.Digest.{digest_text};
ghost use Rattle.cck_cache_files.specs.Compiler.{HasNoDigest, IsContentsDigest, IsContentsLine, IsDigestFile, IsProgramLine, IsProgramsDigest, IsStatusDigest, IsStatusLine, is_hex_digest, place_text, instant_text};

use crate::store_directory::StoreDirectory;
use cck_digest::{Digest, HashState, Sha256State};
use std::alloc::{AllocError, Global};
use std::os::unix::fs::MetadataExt;
use std::rt::Files;
use std::{fs, io};

/// The number of digits of a hex digest.
const DIGITS: usize = 64;

// What a digest of programs depends on, beside their paths.
#[derive(Clone, Copy)]
enum Part {
    // What the system says of them.
    Status,
    // Their contents.
    Contents,
}

// The hex digest of all that was fed. A digest fails for memory alone.
fn text_of<H: HashState>(alloc: Global, digest: Digest<H>) -> Result<String, AllocError>
    ensures { IfOk result (λ text. (fed : List ℕ) → H.holds digest fed
        → string_bytes text ≡ digest_text H.hash fed) }
{
    match digest.finish(alloc) {
        Ok(text) => Ok(text),
        Err(_) => Err(AllocError),
    }
}

// The text of a device, an inode and a size.
fn place_text(alloc: Global, device: u64, inode: u64, size: u64) -> Result<String, AllocError>
    ensures { IfOk result (λ text. string_bytes text ≡ place_text device inode size) }
{
    Ok(format!(in alloc; "{device} {inode} {size}")?)
}

// The text of a time.
fn instant_text(alloc: Global, seconds: i64, nanoseconds: i64) -> Result<String, AllocError>
    ensures { IfOk result (λ text. string_bytes text ≡ instant_text seconds nanoseconds) }
{
    Ok(format!(in alloc; "{seconds}.{nanoseconds}")?)
}

/// The line of a path and of what the system says of what is there.
///
/// The only error is lack of memory.
pub fn line_of(alloc: Global, path: &str, found: &fs::Metadata) -> Result<String, AllocError>
    ensures { IfOk result (λ line. IsStatusLine path.now (string_bytes line)) }
{
    let place = place_text(alloc, found.dev(), found.ino(), found.size())?;
    let modified = instant_text(alloc, found.mtime(), found.mtime_nsec())?;
    let changed = instant_text(alloc, found.ctime(), found.ctime_nsec())?;
    Ok(format!(in alloc; "{path} {place} {modified} {changed}\n")?)
}

// The line of a program and of what the system says of it.
fn status_line<R: Files + AllocGlobal>(rt: &R, path: &str) -> io::Result<String>
    ensures { IfOk result (λ line. IsStatusLine path.now (string_bytes line)) }
{
    let found = fs::metadata(rt, path)?;
    Ok(line_of(rt.alloc(), path, &found)?)
}

// The line of a program and of the hex digest of its contents.
fn contents_line<H: HashState, R: Files + AllocGlobal>(rt: &R, path: &str) -> io::Result<String>
    ensures { IfOk result (λ line. IsContentsLine H.hash path.now (string_bytes line)) }
{
    let mut digest = Digest::<H>::new();
    digest.update(&fs::read(rt, path)?);
    let digest = text_of(rt.alloc(), digest)?;
    Ok(format!(in rt.alloc(); "{path} {digest}\n")?)
}

// The line of a program, by this part.
fn program_line<H: HashState, R: Files + AllocGlobal>(
    rt: &R,
    part: Part,
    path: &str,
) -> io::Result<String>
    ensures { IfOk result (λ line. IsProgramLine H.hash part path.now (string_bytes line)) }
{
    match part {
        Part::Status => status_line(rt, path),
        Part::Contents => contents_line::<H, R>(rt, path),
    }
}

// The hex digest of the lines of these programs, whose paths are separated by colons.
fn programs_digest<H: HashState, R: Files + AllocGlobal>(
    rt: &R,
    part: Part,
    paths: &str,
) -> io::Result<String>
    ensures { IfOk result (λ text. IsProgramsDigest H.hash part paths.now (string_bytes text)) }
{
    let mut digest = Digest::<H>::new();
    for path in paths.split(':') {
        let line = program_line::<H, R>(rt, part, path)?;
        digest.update(line.as_bytes());
    }
    Ok(text_of(rt.alloc(), digest)?)
}

/// The hex digest of what the system says of these programs, whose paths are separated by colons:
/// path, device, inode, size and times of each. A program that is replaced or written to has other
/// times, so that its digest changes.
///
/// The error is that of a program that can't be looked at, or lack of memory.
pub fn compiler_digest<R: Files + AllocGlobal>(rt: &R, paths: &str) -> io::Result<String>
    ensures { IfOk result (λ text.
        IsStatusDigest ⟦<Sha256State as HashState>⟧.hash paths.now (string_bytes text)) }
{
    programs_digest::<Sha256State, R>(rt, Part::Status, paths)
}

// Whether a text is 64 hexadecimal digits.
fn is_hex_digest(text: &[u8]) -> bool
    ensures { result ≡ is_hex_digest text.now }
{
    text.len() == DIGITS && text.iter().all(|byte| byte.is_ascii_hexdigit())
}

// The digest in what the file of this name holds: the digest, a space and the name. `None` where it holds
// something else, as the file of another name does.
fn digest_in<'a>(contents: &'a [u8], name: &[u8]) -> Option<&'a [u8]>
    ensures { MatchOption result (HasNoDigest name.now contents.now)
        (λ digest. IsDigestFile name.now digest.now contents.now) }
{
    let digest = contents.strip_suffix(name)?.strip_suffix(b" ")?;
    if is_hex_digest(digest) {
        Some(digest)
    } else {
        None
    }
}

// The digest that the file at this path holds for this name.
fn kept_digest<R: Files + AllocGlobal>(rt: &R, path: &str, name: &str) -> Option<String>
    ensures { IfSome result (λ text. IsTrue (is_hex_digest (string_bytes text))) }
{
    let contents = fs::read(rt, path).ok()?;
    let digest = digest_in(&contents, name.as_bytes())?;
    let text = std::str::from_utf8(digest).ok()?;
    let text = String::from_str(rt.alloc(), text).ok()?;
    Some(text)
}

/// The hex digest of the path and the contents of each of these programs, whose paths are separated
/// by colons: machines that have the same programs at the same paths have it in common.
///
/// The store keeps it under what the system says of the programs ([`compiler_digest`]), so that they
/// are read again only if one of them was replaced or written to.
///
/// The error is that of a program that can't be read, or lack of memory.
pub fn shared_compiler_digest<R: Files + AllocGlobal>(
    rt: &R,
    store: &StoreDirectory,
    paths: &str,
) -> io::Result<String>
    ensures { IfOk result (λ text. IsTrue (is_hex_digest (string_bytes text))
        ⊎ IsContentsDigest ⟦<Sha256State as HashState>⟧.hash paths.now (string_bytes text)) }
{
    let name = compiler_digest(rt, paths)?;
    let path = store.digest_path(rt, name.as_str())?;
    if let Some(digest) = kept_digest(rt, path.as_str(), name.as_str()) {
        return Ok(digest);
    }
    let digest = programs_digest::<Sha256State, R>(rt, Part::Contents, paths)?;
    // A program that is replaced while it is read has a digest that is not kept.
    if compiler_digest(rt, paths)?.as_str() == name.as_str() {
        let _ = store.keep_digest(rt, name.as_str(), digest.as_str());
    }
    Ok(digest)
}
