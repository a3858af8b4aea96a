// Which silent (tau) hops each round of the worklist marking tests, and how many tests there are.
// The first round tests every silent hop; each later one only those still marked of which a diamond
// may have been closed by a hop that fell (lost its mark) in the round before. A hop that is not
// tested in a round survives it: by this theorem the worklist is right. Definitions (specs/) and
// theorems (proofs/), no code: `mark_worklist_next` finds the hops, `mark_worklist_loop` runs the
// rounds.
// Uses `mark_confluence` for the condition and the rounds.
#![tactic(auto)]
