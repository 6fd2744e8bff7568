// Where each region of the scratch words starts, in words a cell: in a plan of n cells, at n times its number. The same names for the contracts: specs/Layout.antt.
// From 0 on stand the budget rows, one a cell (costs::ROW words each).
#![tactic(auto)]

// The arrival row.
pub const ARRIVAL: usize = 64;

// The labels of registers, with the source's: a set of labels, LABEL_WORDS words a cell.
pub const LABELS: usize = 128;

// In a set of labels: weight to go plus one, 0 for no label, the low 16 bits.
pub const WEIGHT_LOW: usize = 0;

// In a set of labels: weight to go plus one, the high 16 bits.
pub const WEIGHT_HIGH: usize = 1;

// In a set of labels: steps to go, the low 16 bits.
pub const STEPS_LOW: usize = 2;

// In a set of labels: steps to go, the high 16 bits.
pub const STEPS_HIGH: usize = 3;

// In a set of labels: the labelled cells in the order of their labels.
pub const ORDER: usize = 4;

// Words a cell of a set of labels.
pub const LABEL_WORDS: usize = 5;

// The active list.
pub const ACTIVE: usize = 133;

// The next list.
pub const NEXT: usize = 134;

// A flag a cell: 1 if it is listed.
pub const LISTED: usize = 135;

// A mark a cell: the sum of the codes with which a span may close there, 7 at a register or at the source, 8 at a FIFO.
pub const SEEDS: usize = 136;

// The undo trail's far stretch; its near one follows the arrival row.
pub const TRAIL: usize = 137;

// All words of a cell, with one clock.
pub const CELL_WORDS: usize = 256;

// With two clocks: the labels of FIFOs, a set of labels as that of registers.
pub const EXITS: usize = 256;

// With two clocks: the labels of registers on the source's side, laid aside while the sink's side is searched.
pub const ASIDE: usize = 261;

// All words of a cell, with two clocks.
pub const CROSSING_WORDS: usize = 512;

// Words a cell of the far stretch: from TRAIL to CELL_WORDS.
pub const FAR_WORDS: usize = 119;

// Words a cell of the near stretch, with the arrival row: from ARRIVAL to LABELS.
pub const NEAR_WORDS: usize = 64;

// Words of a slot of the trail: a row, its cell, its layer in two words.
pub const SLOT: usize = 67;

// In a slot: the cell.
pub const SLOT_CELL: usize = 64;

// In a slot: the layer, the low 16 bits.
pub const SLOT_LOW: usize = 65;

// In a slot: the layer, the high 16 bits.
pub const SLOT_HIGH: usize = 66;

// While the first period is sought (crate `earliest`) the words hold other things. From 0 on stand the rows of the least delays, one a cell.

// The states that wait.
pub const QUEUE: usize = 64;

// Where each state waits.
pub const PLACES: usize = 128;

// The least delay with which a span closes at each cell.
pub const CLOSES: usize = 192;

// A word that only says when it is worth looking for the next close.
pub const HINT: usize = 193;
