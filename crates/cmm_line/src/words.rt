//! The words of a line, as the parser takes them.

ghost use Rattle.std.specs.Prelude.{◌≡◌, map, All, false, string_bytes, IfOk};
ghost use Rattle.clap.specs.Words.{app_of};
ghost use Rattle.cmm_line.specs.Words.{is_option, Takes};
ghost use Rattle.cmm_line.specs.Parser.{parser};

use clap::error::ErrorKind;
use clap::{Arg, Command};
use std::alloc::{AllocError, Global};

/// One to three words of a line.
#[derive(Clone, Copy)]
pub struct Words<'a> {
    pub name: &'a str,
    pub start: Option<&'a str>,
    pub size: Option<&'a str>,
}

/// What the parser is to take: three words, of which the first must be there, and no options.
fn command<'a>(alloc: Global) -> Result<Command<'a>, AllocError>
    ensures { IfOk result (λ command. app_of command ≡ parser) }
{
    Command::new(alloc, "cmm2")
        .no_binary_name(true)
        .disable_help_flag(true)
        .disable_version_flag(true)
        .arg(Arg::new(alloc, "name").required(true))?
        .arg(Arg::new(alloc, "start"))?
        .arg(Arg::new(alloc, "size"))
}

/// The words, where there are one to three of them.
pub fn read_words<'a>(alloc: Global, words: &'a [String]) -> Result<Option<Words<'a>>, AllocError>
    requires { All (λ word. is_option (string_bytes word) ≡ false) words.now }
    ensures { IfOk result (Takes (map string_bytes words.now)) }
{
    let matches = match command(alloc)?.try_get_matches_from(words) {
        Ok(matches) => matches,
        Err(error) if error.kind() == ErrorKind::OutOfMemory => return Err(AllocError),
        Err(_) => return Ok(None),
    };
    let Some(name) = matches.get_str("name") else {
        return Ok(None);
    };
    Ok(Some(Words {
        name,
        start: matches.get_str("start"),
        size: matches.get_str("size"),
    }))
}
