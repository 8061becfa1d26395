//! Traces of worked runs.

/// The trace of two processing elements that each add 1 to cell 0.
pub(crate) const COMBINED_PAIR: &str = "\
ultra trace 2
cycle 0
cycle 1
cycle 2
pni 0: 0@0 faa 1
pni 1: 1@0 faa 1
cycle 3
req 0 0: 1@0 faa 2 *
wait 0 0: 1@0 same 0 plus 1
cycle 4
wait 0 0: 1@0 same 0 plus 1
inp 0: 1@0 faa 2
cycle 5
act 0 1@0 faa 2 = 0 now 2
wait 0 0: 1@0 same 0 plus 1
out 0: 1@0 = 0
cycle 6
rep 0 0: 0@0 = 1
rep 0 1: 1@0 = 0
cycle 7
got 0@0 = 1
got 1@0 = 0
end quiet
cell 0 2
pe 0 halted 3 r2=1 r3=1
pe 1 halted 3 r2=1
";

/// The trace of four processing elements that each add their number and 1 to cell 0.
pub(crate) const TWO_LEVEL_TREE: &str = "\
ultra trace 2
cycle 0
cycle 1
cycle 2
pni 0: 0@0 faa 1
pni 1: 1@0 faa 2
pni 2: 2@0 faa 3
pni 3: 3@0 faa 4
cycle 3
req 0 0: 2@0 faa 4 *
req 0 2: 3@0 faa 6 *
wait 0 0: 2@0 same 0 plus 3
wait 0 2: 3@0 same 1 plus 4
cycle 4
req 1 0: 2@0 faa 10 *
wait 0 0: 2@0 same 0 plus 3
wait 0 2: 3@0 same 1 plus 4
wait 1 0: 2@0 same 3 plus 4
cycle 5
wait 0 0: 2@0 same 0 plus 3
wait 0 2: 3@0 same 1 plus 4
wait 1 0: 2@0 same 3 plus 4
inp 0: 2@0 faa 10
cycle 6
act 0 2@0 faa 10 = 0 now 10
wait 0 0: 2@0 same 0 plus 3
wait 0 2: 3@0 same 1 plus 4
wait 1 0: 2@0 same 3 plus 4
out 0: 2@0 = 0
cycle 7
wait 0 0: 2@0 same 0 plus 3
wait 0 2: 3@0 same 1 plus 4
rep 1 0: 2@0 = 0
rep 1 1: 3@0 = 4
cycle 8
rep 0 0: 0@0 = 3
rep 0 1: 2@0 = 0
rep 0 2: 1@0 = 8
rep 0 3: 3@0 = 4
cycle 9
got 0@0 = 3
got 1@0 = 8
got 2@0 = 0
got 3@0 = 4
end quiet
cell 0 10
pe 0 halted 3 r2=1 r3=3
pe 1 halted 3 r2=2 r3=8
pe 2 halted 3 r2=3
pe 3 halted 3 r2=4 r3=4
";
