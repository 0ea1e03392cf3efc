// The rescue of a damaged narration, its file as a whole. Definitions and laws without code: whether a
// block is kept is in block_kept, the step for a block in block_rescue, how many are kept in file_kept, and
// what the program makes of a piece of a file in io_rescue.
#![tactic(auto)]
