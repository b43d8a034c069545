// The year 2028: its unworked days, and the table of next working days that follows from them.
ghost use Rattle.std.specs.Prelude.{◌≡◌};
ghost use Rattle.calendar.specs.Rule.{table_of};
ghost use Rattle.calendar.specs.Year.{unworked2028, next_in2028};

use crate::generator::{PLACES, YEAR_DAYS};

// How many days are not worked.
pub const UNWORKED_COUNT: usize = 110;

// Saturdays, Sundays and the five holidays.
pub const UNWORKED_DAYS: [u16; UNWORKED_COUNT] = [
    // January
    1, 2, 6, 8, 9, 15, 16, 22, 23, 29, 30,
    // February
    36, 37, 43, 44, 50, 51, 57, 58,
    // March
    64, 65, 71, 72, 78, 79, 85, 86,
    // April
    92, 93, 99, 100, 106, 107, 113, 114, 120, 121,
    // May
    122, 127, 128, 134, 135, 141, 142, 148, 149,
    // June
    155, 156, 162, 163, 169, 170, 176, 177,
    // July
    183, 184, 190, 191, 197, 198, 204, 205, 211, 212,
    // August
    218, 219, 225, 226, 232, 233, 239, 240,
    // September
    246, 247, 253, 254, 260, 261, 267, 268, 274,
    // October
    275, 281, 282, 286, 288, 289, 295, 296, 302, 303,
    // November
    309, 310, 316, 317, 323, 324, 330, 331,
    // December
    337, 338, 344, 345, 351, 352, 358, 359, 360, 365, 366,
];

// For each day of the year the number of the first later working day, 0 where there is none.
pub const NEXT_DAYS: [u16; PLACES] = [
    // January
    3, 3, 4, 5, 7, 7, 10, 10, 10, 11, 12, 13, 14, 17, 17, 17, 18, 19, 20, 21, 24, 24, 24, 25, 26,
    27, 28, 31, 31, 31, 32,
    // February
    33, 34, 35, 38, 38, 38, 39, 40, 41, 42, 45, 45, 45, 46, 47, 48, 49, 52, 52, 52, 53, 54, 55, 56,
    59, 59, 59, 60, 61,
    // March
    62, 63, 66, 66, 66, 67, 68, 69, 70, 73, 73, 73, 74, 75, 76, 77, 80, 80, 80, 81, 82, 83, 84, 87,
    87, 87, 88, 89, 90, 91, 94,
    // April
    94, 94, 95, 96, 97, 98, 101, 101, 101, 102, 103, 104, 105, 108, 108, 108, 109, 110, 111, 112,
    115, 115, 115, 116, 117, 118, 119, 123, 123, 123,
    // May
    123, 124, 125, 126, 129, 129, 129, 130, 131, 132, 133, 136, 136, 136, 137, 138, 139, 140, 143,
    143, 143, 144, 145, 146, 147, 150, 150, 150, 151, 152, 153,
    // June
    154, 157, 157, 157, 158, 159, 160, 161, 164, 164, 164, 165, 166, 167, 168, 171, 171, 171, 172,
    173, 174, 175, 178, 178, 178, 179, 180, 181, 182, 185,
    // July
    185, 185, 186, 187, 188, 189, 192, 192, 192, 193, 194, 195, 196, 199, 199, 199, 200, 201, 202,
    203, 206, 206, 206, 207, 208, 209, 210, 213, 213, 213, 214,
    // August
    215, 216, 217, 220, 220, 220, 221, 222, 223, 224, 227, 227, 227, 228, 229, 230, 231, 234, 234,
    234, 235, 236, 237, 238, 241, 241, 241, 242, 243, 244, 245,
    // September
    248, 248, 248, 249, 250, 251, 252, 255, 255, 255, 256, 257, 258, 259, 262, 262, 262, 263, 264,
    265, 266, 269, 269, 269, 270, 271, 272, 273, 276, 276,
    // October
    276, 277, 278, 279, 280, 283, 283, 283, 284, 285, 287, 287, 290, 290, 290, 291, 292, 293, 294,
    297, 297, 297, 298, 299, 300, 301, 304, 304, 304, 305, 306,
    // November
    307, 308, 311, 311, 311, 312, 313, 314, 315, 318, 318, 318, 319, 320, 321, 322, 325, 325, 325,
    326, 327, 328, 329, 332, 332, 332, 333, 334, 335, 336,
    // December
    339, 339, 339, 340, 341, 342, 343, 346, 346, 346, 347, 348, 349, 350, 353, 353, 353, 354, 355,
    356, 357, 361, 361, 361, 361, 362, 363, 364, 0, 0, 0,
];

// The list of unworked days.
pub fn unworked_days() -> [u16; UNWORKED_COUNT]
    ensures { result ≡ unworked2028 }
{
    UNWORKED_DAYS
}

// The table.
pub fn table() -> [u16; PLACES]
    ensures { result ≡ table_of unworked2028 }
{
    NEXT_DAYS
}

// Its entry of a day, 0 for a number that is no day of the year; a number as in the table, since `next_in2028` says so.
pub fn next_day(day: u16) -> u16
    ensures { result ≡ next_in2028 day }
{
    if day == 0 || YEAR_DAYS < day {
        return 0;
    }
    table()[usize::from(day) - 1]
}
