// Headers of cells, on wires and on the heap: "The header is kind × 65536 + tag"; a Constr or an Exn adds its tag.
pub const BOOL: u32 = 1 << 16;

pub const INT: u32 = 2 << 16;

pub const FLOAT: u32 = 3 << 16;

pub const TUPLE: u32 = 4 << 16;

pub const CONSTR: u32 = 5 << 16;

pub const EXN: u32 = 6 << 16;

pub const NONE_CELL: u32 = 7 << 16;
