//! The stamp of a module, which distinguishes schemas.
ghost use Rattle.std.specs.Prelude.{◌≡◌, ◌<◌, ◌++◌, take, codes, IfOk, IfErr};
ghost use Rattle.std.specs.List.{flat_map};
ghost use Rattle.sha2.specs.Sha256.{sha256};
ghost use Rattle.transcode_words.specs.Answers.{NoMemory};
ghost use Rattle.transcode_core.specs.Causes.{IsOfInput};
ghost use Rattle.transcode_core.specs.Digits as digits;
ghost use Rattle.transcode_core.specs.Requests.Due as due;

use asn_types::Module;
use base_texts::Memory;
use module_print::print_module;
use sha2::{Digest, Sha256};
use std::alloc::Global;
use transcode_words::Outcome;

/// The number of octets of a stamp.
pub const STAMP_LENGTH: usize = 8;

/// Returns the stamp of a printed module: the first 8 octets of its SHA-256 (FIPS 180-4).
pub fn stamp_of(printed: &[u8]) -> [u8; STAMP_LENGTH]
    ensures { result ≡ take 8 (sha256 printed.now) }
{
    let digest = Sha256::digest(printed);
    let mut stamp = [0; STAMP_LENGTH];
    stamp.copy_from_slice(&digest[..STAMP_LENGTH]);
    stamp
}

/// Returns the stamp of a module.
pub fn module_stamp(alloc: Global, module: &Module) -> Result<[u8; STAMP_LENGTH], Outcome>
    ensures stamp { IfOk result (λ stamp. stamp ≡ due.stamp_of module.now) }
    ensures memory { IfErr result NoMemory }
    ensures stage { IfErr result IsOfInput }
{
    match print_module(alloc, module) {
        Ok(text) => Ok(stamp_of(&text)),
        Err(_) => Err(Outcome::OutOfMemory),
    }
}

// Returns the hexadecimal digit of a number below 16.
fn digit(number: u8) -> u8
    requires { number < 16 }
    ensures { result ≡ digits.digit number }
{
    if number < 10 {
        48 + number
    } else {
        87 + number
    }
}

/// Returns a stamp in hexadecimal digits, and a line feed.
pub fn stamp_line(alloc: Global, stamp: [u8; STAMP_LENGTH]) -> Result<Vec<u8>, Memory>
    ensures { IfOk result (λ line. line.items ≡ flat_map digits.both_digits stamp ++ codes "\n") }
{
    let mut line = Vec::new(alloc);
    let mut rest = stamp.as_slice();
    'octets: while let [octet, others @ ..] = rest {
        line.push(digit(*octet / 16))?;
        line.push(digit(*octet % 16))?;
        rest = others;
    }
    line.push(b'\n')?;
    Ok(line)
}
