// Stored codes that the tests mount.

// A guard that watches a lid, and a power process that raises a rail and counts its tries.
pub static GUARD: [i32; 87] = [
    1, 10, 1, 1, 1, 2, 23, 2, 0, 5, 0, 0, 0, 0, 0, 0, 0, 0, 0, 0, 0, 0, 0, 0, 1, 13, 0, 0, 0, 0, 0,
    0, 0, 0, 0, 0, 0, 0, 0, 0, 0, 3, 0, 16, 4, 20, 1, 19, 1, 0, 0, 3, 0, 13, 0, 16, 12, 21, 1, 1,
    0, 18, 0, 19, 0, 0, 0, 1, 1, 18, 0, 2, 0, 1, 1, 7, 0, 17, 0, 24, 1, 16, 22, 22, 0, 0, 0,
];

// One process that keeps 5 in its cell, and then divides it by its input.
pub static RATIO: [i32; 38] = [
    1, 10, 1, 1, 0, 1, 7, 1, 0, 0, 0, 0, 0, 0, 0, 0, 0, 0, 0, 0, 0, 0, 0, 0, 1, 5, 17, 0, 2, 0, 3,
    0, 10, 0, 17, 0, 0, 0,
];
