// The words of the program, as a command of the crate `clap` reads them.
ghost use Rattle.std.specs.Prelude.{◌≡◌, IfOk, option_map, true};
ghost use Rattle.clap.specs.Words.{app_of};
ghost use Rattle.server_words.specs.Private.Command as spec;
ghost use Rattle.server_words.specs.Words.{are_texts, texts};

use clap::error::ErrorKind;
use clap::{Arg, ArgAction, Command};
use std::alloc::{AllocError, Global};
use value_bytes::OutOfMemory;

// A command of two texts that have to be there, without flags, subcommands and a program's name.
fn two_texts<'a>(alloc: Global) -> Result<Command<'a>, AllocError>
    ensures { IfOk result (λ command. app_of command ≡ spec.two_texts) }
{
    let address = Arg::new(alloc, "address")
        .required(true)
        .action(ArgAction::Set);
    let number = Arg::new(alloc, "number")
        .required(true)
        .action(ArgAction::Set);
    Command::new(alloc, "corsserve")
        .no_binary_name(true)
        .disable_help_flag(true)
        .disable_version_flag(true)
        .disable_help_subcommand(true)
        .arg(address)?
        .arg(number)
}

// The words, where they are two. None of them is empty or begins with `-`.
pub(crate) fn two_words(
    alloc: Global,
    words: &[String],
) -> Result<Option<(&str, &str)>, OutOfMemory>
    requires { are_texts (texts words.now) ≡ true }
    ensures { IfOk result (λ pair. option_map (λ pair. (pair.0.now, pair.1.now)) pair
        ≡ spec.two_of (texts words.now)) }
{
    let command = two_texts(alloc)?;
    match command.try_get_matches_from(words) {
        Ok(matches) => Ok(matches.get_str("address").zip(matches.get_str("number"))),
        Err(error) => match error.kind() {
            ErrorKind::OutOfMemory => Err(OutOfMemory),
            _ => Ok(None),
        },
    }
}
