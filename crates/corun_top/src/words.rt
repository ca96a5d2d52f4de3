ghost use Rattle.std.specs.Prelude.{◌≡◌, ◌↔◌, codes, map, IsTrue, MatchOption};
ghost use Rattle.std.specs.String.{string_bytes};
ghost use Rattle.corun_top.specs.Words.{IsAccepted, IsFileName, IsFirstBad};

/// The index of the first command word that no accepted list has there, or the number of words where only the end is missing.
/// None for an accepted list. The words are the program's arguments without its own name. It takes no memory.
pub fn first_bad(words: &[String]) -> Option<u32>
    ensures { MatchOption result (IsAccepted (map string_bytes words.now)) (IsFirstBad (map string_bytes words.now)) }
{
    let Some((command, rest)) = words.split_first() else {
        return Some(0);
    };
    if !is_run(command) {
        return Some(0);
    }
    let Some((file, stray)) = rest.split_first() else {
        return Some(1);
    };
    if !is_file_name(file) {
        return Some(1);
    }
    if stray.is_empty() { None } else { Some(2) }
}

fn is_run(word: &String) -> bool
    ensures { IsTrue result ↔ (string_bytes word.now ≡ codes "run") }
{
    word.as_str() == "run"
}

fn is_file_name(word: &String) -> bool
    ensures { IsTrue result ↔ IsFileName (string_bytes word.now) }
{
    match word.as_bytes() {
        [] => false,
        [first, ..] => *first != b'-',
    }
}
