//! The words of a command.
ghost use Rattle.std.specs.Prelude.{◌≡◌, map};
ghost use Rattle.std.specs.Char.{is_ascii_digit};
ghost use Rattle.std.specs.List.{list_all};
ghost use Rattle.std.specs.String.{string_bytes};
ghost use Rattle.cmd_defs.specs.Words.{command_of, two_words, three_words, four_words, selftest_of, kind_of, number_of, is_numeral};

use cmd_defs::Command;
use rx_tree::FsKind;

/// The command that words ask for, where they fit a line of the usage.
#[tactic(auto, using(crate::proofs::Lines::lines))]
pub fn parse_words(words: &[String]) -> Option<Command>
    ensures { result ≡ command_of (map (λ word. string_bytes word) words.now) }
{
    match words {
        [verb, _] => of_two_words(verb.as_str()),
        [verb, second, third] => of_three_words(verb.as_str(), second.as_str(), third.as_str()),
        [verb, second, third, fourth] => {
            of_four_words(
                verb.as_str(),
                second.as_str(),
                third.as_str(),
                fourth.as_str(),
            )
        }
        _ => None,
    }
}

/// `inventory IMAGE` and `report JOURNAL`.
#[tactic(auto, unfolding(cmd_defs::specs::Words::two_words))]
fn of_two_words(verb: &str) -> Option<Command>
    ensures { result ≡ two_words verb.now }
{
    match verb {
        "inventory" => Some(Command::Inventory),
        "report" => Some(Command::Report),
        _ => None,
    }
}

/// `plan IMAGE RULES` and `resume IMAGE JOURNAL`.
#[tactic(auto, unfolding(cmd_defs::specs::Words::three_words))]
fn of_three_words(verb: &str, second: &str, third: &str) -> Option<Command>
    ensures { result ≡ three_words verb.now second.now third.now }
{
    match verb {
        "plan" => Some(Command::Plan),
        "resume" if second != third => Some(Command::Resume),
        _ => None,
    }
}

/// `redact IMAGE JOURNAL RULES` and `selftest KIND NUMBER FILES`.
#[tactic(auto, unfolding(cmd_defs::specs::Words::four_words))]
fn of_four_words(verb: &str, second: &str, third: &str, fourth: &str) -> Option<Command>
    ensures { result ≡ four_words verb.now second.now third.now fourth.now }
{
    match verb {
        "redact" if second != third => Some(Command::Redact),
        "selftest" => parse_selftest(second, third, fourth),
        _ => None,
    }
}

/// The command `selftest` with these operands.
#[tactic(auto, unfolding(cmd_defs::specs::Words::selftest_of))]
fn parse_selftest(kind: &str, number: &str, files: &str) -> Option<Command>
    ensures { result ≡ selftest_of kind.now number.now files.now }
{
    let kind = parse_kind(kind)?;
    let number = parse_number(number, 0, u32::MAX)?;
    let files = parse_number(files, 1, 200)?;
    Some(Command::Selftest {
        kind,
        number,
        files,
    })
}

/// The kind of file system that a word names.
#[tactic(auto, unfolding(cmd_defs::specs::Words::kind_of))]
fn parse_kind(word: &str) -> Option<FsKind>
    ensures { result ≡ kind_of word.now }
{
    match word {
        "ntfs" => Some(FsKind::Ntfs),
        "ufs1" => Some(FsKind::Ufs1),
        "ufs2" => Some(FsKind::Ufs2),
        "hfsplus" => Some(FsKind::HfsPlus),
        _ => None,
    }
}

/// The number from `least` to `most` that a word writes, without a sign or leading zeros.
#[tactic(auto, unfolding(cmd_defs::specs::Words::number_of))]
fn parse_number(word: &str, least: u32, most: u32) -> Option<u32>
    ensures { result ≡ number_of least most word.now }
{
    if !is_numeral(word.as_bytes()) {
        return None;
    }
    let number: u32 = word.parse().ok()?;
    (least..=most).contains(&number).then_some(number)
}

/// Whether a word is one decimal digit, or several of which the first is not 0.
#[tactic(auto, using(crate::proofs::Lines::numerals))]
fn is_numeral(word: &[u8]) -> bool
    ensures { result ≡ is_numeral word.now }
{
    match word {
        [] => false,
        [digit] => digit.is_ascii_digit(),
        [b'0', ..] => false,
        _ => are_digits(word),
    }
}

/// Whether all these are decimal digits.
fn are_digits(word: &[u8]) -> bool
    ensures { result ≡ list_all is_ascii_digit word.now }
{
    word.iter().all(|digit| digit.is_ascii_digit())
}
