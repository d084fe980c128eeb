//! Laws of the words.

ghost use Rattle.std.specs.Prelude.{ℕ, List};
ghost use Rattle.command_line.specs.FeedWords.{FeedWords, IsFeedWords};
ghost use Rattle.command_line.specs.ReplayWords.{IsReplayWords, ReplayWords};
ghost use Rattle.command_line.specs.ServeWords.{IsServeWords};

/// No words are those of two commands.
pub fn one_command()
    ensures feed_or_replay { (words : List (List ℕ)) (f : FeedWords) (r : ReplayWords)
        → IsFeedWords words f → ¬ IsReplayWords words r }
    ensures feed_or_serve { (words : List (List ℕ)) (f : FeedWords) (config : List ℕ)
        → IsFeedWords words f → ¬ IsServeWords words config }
    ensures replay_or_serve { (words : List (List ℕ)) (r : ReplayWords) (config : List ℕ)
        → IsReplayWords words r → ¬ IsServeWords words config }
{}
