//! What the words of a command line ask for.
ghost use Rattle.std.specs.Prelude.{◌≡◌, ◌≢◌, IfNone, MatchBool, IfOk, IfSome, IsOkUnless, map, string_bytes};
ghost use Rattle.cck_command.specs.Request.{IsNoKeyRequest, run_words, words_of};

use cck_util::{Language, UtilError};
use std::alloc::Global;
use std::marker::Model;

/// The key that a command line asks for, without the text that is read.
#[derive(Drop)]
pub struct KeyRequest<'a> {
    /// The compiler's digest.
    pub compiler_digest: &'a str,
    /// The language.
    pub language: Language,
    /// The arguments of the command line, which may be none.
    pub arguments: &'a [String],
}

impl<'a> Model for KeyRequest<'a> {
    ghost use Rattle.cck_command.specs.Request.{KeyCommand};

    ghost Value = { KeyCommand };

    ghost use Rattle.cck_command.specs.KeyRequest.{key_command_of};

    ghost view = { key_command_of };
}

impl<'a> KeyRequest<'a> {
    /// Returns what these words ask for. They are `key`, a digest, the name of a language, and
    /// arguments; `None` is returned exactly if they don't have this form.
    pub fn from_words(words: &'a [String]) -> Option<KeyRequest<'a>>
        ensures some { IfSome result (λ request. map string_bytes words.now ≡ words_of request) }
        ensures none { IfNone result (IsNoKeyRequest (map string_bytes words.now)) }
    {
        let [command, compiler_digest, name, arguments @ ..] = words else {
            return None;
        };
        if command.as_str() != "key" {
            return None;
        }
        let language = name.as_str().parse::<Language>().ok()?;
        Some(KeyRequest {
            compiler_digest: compiler_digest.as_str(),
            language,
            arguments,
        })
    }
}

/// Whether these words are `run` alone, which asks for a run of the script that is read.
pub fn asks_to_run(words: &[String]) -> bool
    ensures { MatchBool result (map string_bytes words.now ≡ run_words) (map string_bytes words.now ≢ run_words) }
{
    let [command] = words else {
        return false;
    };
    command.as_str() == "run"
}

/// Returns the bytes of each word. The only error is [`UtilError::Memory`].
pub fn bytes_of(alloc: Global, words: &[String]) -> Result<Vec<Vec<u8>>, UtilError>
    ensures bytes { IfOk result (λ all. map (λ bytes. bytes.items) all.items ≡ map string_bytes words.now) }
    ensures errors { IsOkUnless result UtilError.Memory }
{
    let mut all = Vec::new(alloc);
    for word in words {
        all.push(word.as_bytes().to_vec(alloc)?)?;
    }
    Ok(all)
}
