ghost use Rattle.std.specs.Prelude.{◌≡◌, ◌≢◌, ◌∷◌, ◌++◌, [], ℕ, List, None, Some, codes};
ghost use Rattle.draid_script.specs.Word.{number_of};
ghost use Rattle.draid_words.specs.Mode.{OfSession, OfWorkload, asked};

/// Law: a session is in memory, or in a folder that stands behind it or before it, in one word with `--dir`, or in a word
/// of its own where that begins with no hyphen.
pub fn sessions_are_taken()
    ensures memory { asked (codes "session" ∷ []) ≡ Some (OfSession None) }
    ensures folder { (dir : List ℕ) → asked (codes "session" ∷ (codes "--dir=" ++ dir) ∷ []) ≡ Some (OfSession (Some dir)) }
    ensures apart { (first : ℕ) (rest : List ℕ) → first ≢ 45
        → asked (codes "session" ∷ codes "--dir" ∷ (first ∷ rest) ∷ []) ≡ Some (OfSession (Some (first ∷ rest))) }
    ensures apart_before { (first : ℕ) (rest : List ℕ) → first ≢ 45
        → asked (codes "--dir" ∷ (first ∷ rest) ∷ codes "session" ∷ []) ≡ Some (OfSession (Some (first ∷ rest))) }
    ensures before { (dir : List ℕ) → asked ((codes "--dir=" ++ dir) ∷ codes "session" ∷ []) ≡ Some (OfSession (Some dir)) }
{}

/// Law: a workload has a number.
pub fn workloads_are_taken()
    ensures { (text : List ℕ) (number : ℕ) → number_of text ≡ Some number → asked (codes "workload" ∷ text ∷ []) ≡ Some (OfWorkload number) }
{}

/// Law: words with too much or too little are refused.
pub fn other_words_are_refused()
    ensures nothing { asked [] ≡ None }
    ensures no_number { asked (codes "workload" ∷ []) ≡ None }
    ensures no_such_number { asked (codes "workload" ∷ codes "x" ∷ []) ≡ None }
    ensures two_numbers { asked (codes "workload" ∷ codes "1" ∷ codes "2" ∷ []) ≡ None }
    ensures number_of_session { asked (codes "session" ∷ codes "1" ∷ []) ≡ None }
    ensures folder_of_workload { (dir : List ℕ) → asked (codes "workload" ∷ codes "1" ∷ (codes "--dir=" ++ dir) ∷ []) ≡ None }
    ensures two_folders { (dir dir' : List ℕ) → asked (codes "session" ∷ (codes "--dir=" ++ dir) ∷ (codes "--dir=" ++ dir') ∷ []) ≡ None }
    ensures no_folder { asked (codes "session" ∷ codes "--dir" ∷ []) ≡ None }
    ensures help { asked (codes "--help" ∷ []) ≡ None }
{}
