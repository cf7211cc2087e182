// Whether it is asked to say how far something long is.
ghost use Rattle.std.specs.Prelude.{◌≡◌, map, string_bytes};
ghost use Rattle.player_args.specs.Progress.{asks_progress, without_progress};

// Whether the last word is `--progress`, and the words without it.
#[tactic(auto, using(crate::proofs::Last::asks, crate::proofs::Last::before, crate::proofs::Last::all, crate::proofs::Last::none_asks, crate::proofs::Last::none_left))]
pub fn progress_of(words: &[String]) -> (bool, &[String])
    ensures asked { result.0 ≡ asks_progress (map string_bytes words.now) }
    ensures rest { map string_bytes result.1.now ≡ without_progress (map string_bytes words.now) }
{
    let [rest @ .., last] = words else {
        return (false, words);
    };
    if last.as_str() == "--progress" {
        (true, rest)
    } else {
        (false, words)
    }
}
