ghost use Rattle.std.specs.Prelude.{◌≡◌, ◌↔◌, ◌<◌, ◌≤◌, ◌^◌, ℕ, List, Ok, Some, map};
ghost use Rattle.std.specs.Fmt.{decimal};
ghost use Rattle.std.specs.List.{join_with_byte};
ghost use Rattle.draid_script.specs.Grammar.{lane_of, line_of};
ghost use Rattle.draid_script.specs.Line.{Command, InLane, LaneCommand};
ghost use Rattle.draid_script.specs.Shape.{IsLaneText, IsLine};
ghost use Rattle.draid_script.specs.Word.{number_of, words_of};
ghost use Rattle.draid_script.specs.Writing.{IsForLanes, IsWritable, written_lane_line, written_line};

/// A line is its words, joined by single spaces.
pub fn words_are_joined()
    ensures { (line : List ℕ) → join_with_byte 32 (map (λ word. word.text) (words_of line)) ≡ line }
{}

/// A number's word is what is written for it, without a sign or a leading zero.
pub fn numbers_are_decimal()
    ensures { (word : List ℕ) (n : ℕ) → (number_of word ≡ Some n) ↔ ((n < 2 ^ 64) × (word ≡ decimal n)) }
{}

/// What a writer of lines would write is read again as what was asked for.
pub fn lines_are_read_again()
    ensures { (command : Command) → IsWritable command → line_of (written_line command) ≡ Ok command }
{}

/// The same of the lines of a section.
pub fn lane_lines_are_read_again()
    ensures { (lanes lane : ℕ) (command : Command) → lane < lanes → lanes ≤ 2 ^ 32 → IsForLanes command → IsWritable command
        → lane_of lanes (written_lane_line lane command) ≡ Ok (InLane lane command) }
{}

/// The lines that are taken are just those that are spelled as a command.
pub fn lines_are_exact()
    ensures { (text : List ℕ) (command : Command) → (line_of text ≡ Ok command) ↔ IsLine text command }
{}

/// The same of the lines of a section.
pub fn lane_lines_are_exact()
    ensures { (lanes : ℕ) (text : List ℕ) (line : LaneCommand) → lanes ≤ 2 ^ 32
        → (lane_of lanes text ≡ Ok line) ↔ IsLaneText lanes text line }
{}
