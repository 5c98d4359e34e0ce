// A record's length, from a table over both of its counts.
ghost use Rattle.std.specs.Prelude.{◌≡◌, ◌≤◌};
ghost use Rattle.journal.specs.Ranges.{candidate_limit};
ghost use Rattle.journal.specs.Record.{record_length};

// Row by row: for each number of candidates, 0 to 16, the lengths with 0 to 16 predecessor candidates.
static RECORD_LENGTHS: [u16; 289] = [
    // 0 candidates
    5, 5, 5, 5, 5, 5, 5, 5, 5, 5, 5, 5, 5, 5, 5, 5, 5,
    // 1 candidate
    12, 14, 16, 18, 20, 22, 24, 26, 28, 30, 32, 34, 36, 38, 40, 42, 44,
    // 2 candidates
    19, 23, 27, 31, 35, 39, 43, 47, 51, 55, 59, 63, 67, 71, 75, 79, 83,
    // 3 candidates
    26, 32, 38, 44, 50, 56, 62, 68, 74, 80, 86, 92, 98, 104, 110, 116, 122,
    // 4 candidates
    33, 41, 49, 57, 65, 73, 81, 89, 97, 105, 113, 121, 129, 137, 145, 153, 161,
    // 5 candidates
    40, 50, 60, 70, 80, 90, 100, 110, 120, 130, 140, 150, 160, 170, 180, 190, 200,
    // 6 candidates
    47, 59, 71, 83, 95, 107, 119, 131, 143, 155, 167, 179, 191, 203, 215, 227, 239,
    // 7 candidates
    54, 68, 82, 96, 110, 124, 138, 152, 166, 180, 194, 208, 222, 236, 250, 264, 278,
    // 8 candidates
    61, 77, 93, 109, 125, 141, 157, 173, 189, 205, 221, 237, 253, 269, 285, 301, 317,
    // 9 candidates
    68, 86, 104, 122, 140, 158, 176, 194, 212, 230, 248, 266, 284, 302, 320, 338, 356,
    // 10 candidates
    75, 95, 115, 135, 155, 175, 195, 215, 235, 255, 275, 295, 315, 335, 355, 375, 395,
    // 11 candidates
    82, 104, 126, 148, 170, 192, 214, 236, 258, 280, 302, 324, 346, 368, 390, 412, 434,
    // 12 candidates
    89, 113, 137, 161, 185, 209, 233, 257, 281, 305, 329, 353, 377, 401, 425, 449, 473,
    // 13 candidates
    96, 122, 148, 174, 200, 226, 252, 278, 304, 330, 356, 382, 408, 434, 460, 486, 512,
    // 14 candidates
    103, 131, 159, 187, 215, 243, 271, 299, 327, 355, 383, 411, 439, 467, 495, 523, 551,
    // 15 candidates
    110, 140, 170, 200, 230, 260, 290, 320, 350, 380, 410, 440, 470, 500, 530, 560, 590,
    // 16 candidates
    117, 149, 181, 213, 245, 277, 309, 341, 373, 405, 437, 469, 501, 533, 565, 597, 629,
];

// The record length of c candidates with p predecessor candidates.
pub fn record_length(c: usize, p: usize) -> usize
    requires { (c ≤ candidate_limit) × (p ≤ candidate_limit) }
    ensures { (result ≡ record_length c p) × (result ≤ 629) }
{
    RECORD_LENGTHS[17 * c + p] as usize
}
