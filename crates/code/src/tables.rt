// The tables, and how an entry is found. An entry is one number: its code point, or 0, in the low sixteen bits, and its
// byte or bytes above them. A const array of numbers is checked in seconds, one of structs is not.
ghost use Rattle.std.specs.Prelude.{◌≡◌, ◌<◌, ◌==◌, ◌%◌, get_or, position};
ghost use Rattle.code.specs.Preamble.{row_prefix};
ghost use Rattle.code.specs.Tables.{all_points, code_entries, control_entries};

use crate::pair::Pair;

// The pair of each row's white preamble, in row order 0 to 14: the style and the underline are added to the second byte.
pub(crate) const ROW_PREFIXES: [Pair; 15] = [
    Pair(0x11, 0x40),
    Pair(0x11, 0x60),
    Pair(0x12, 0x40),
    Pair(0x12, 0x60),
    Pair(0x15, 0x40),
    Pair(0x15, 0x60),
    Pair(0x16, 0x40),
    Pair(0x16, 0x60),
    Pair(0x17, 0x40),
    Pair(0x17, 0x60),
    Pair(0x10, 0x40),
    Pair(0x13, 0x40),
    Pair(0x13, 0x60),
    Pair(0x14, 0x40),
    Pair(0x14, 0x60),
];

// NUL, then the standard characters 0x20 to 0x7F in the order of their bytes.
pub(crate) const CODE_MAP_TABLE: [u32; 97] = [
    0x0000_0000, // NUL
    0x0020_0020, // space
    0x0021_0021, // !
    0x0022_0022, // "
    0x0023_0023, // #
    0x0024_0024, // $
    0x0025_0025, // %
    0x0026_0026, // &
    0x0027_2019, // ’
    0x0028_0028, // (
    0x0029_0029, // )
    0x002A_00E1, // á
    0x002B_002B, // +
    0x002C_002C, // ,
    0x002D_002D, // -
    0x002E_002E, // .
    0x002F_002F, // /
    0x0030_0030, // 0
    0x0031_0031, // 1
    0x0032_0032, // 2
    0x0033_0033, // 3
    0x0034_0034, // 4
    0x0035_0035, // 5
    0x0036_0036, // 6
    0x0037_0037, // 7
    0x0038_0038, // 8
    0x0039_0039, // 9
    0x003A_003A, // :
    0x003B_003B, // ;
    0x003C_003C, // <
    0x003D_003D, // =
    0x003E_003E, // >
    0x003F_003F, // ?
    0x0040_0040, // @
    0x0041_0041, // A
    0x0042_0042, // B
    0x0043_0043, // C
    0x0044_0044, // D
    0x0045_0045, // E
    0x0046_0046, // F
    0x0047_0047, // G
    0x0048_0048, // H
    0x0049_0049, // I
    0x004A_004A, // J
    0x004B_004B, // K
    0x004C_004C, // L
    0x004D_004D, // M
    0x004E_004E, // N
    0x004F_004F, // O
    0x0050_0050, // P
    0x0051_0051, // Q
    0x0052_0052, // R
    0x0053_0053, // S
    0x0054_0054, // T
    0x0055_0055, // U
    0x0056_0056, // V
    0x0057_0057, // W
    0x0058_0058, // X
    0x0059_0059, // Y
    0x005A_005A, // Z
    0x005B_005B, // [
    0x005C_00E9, // é
    0x005D_005D, // ]
    0x005E_00ED, // í
    0x005F_00F3, // ó
    0x0060_00FA, // ú
    0x0061_0061, // a
    0x0062_0062, // b
    0x0063_0063, // c
    0x0064_0064, // d
    0x0065_0065, // e
    0x0066_0066, // f
    0x0067_0067, // g
    0x0068_0068, // h
    0x0069_0069, // i
    0x006A_006A, // j
    0x006B_006B, // k
    0x006C_006C, // l
    0x006D_006D, // m
    0x006E_006E, // n
    0x006F_006F, // o
    0x0070_0070, // p
    0x0071_0071, // q
    0x0072_0072, // r
    0x0073_0073, // s
    0x0074_0074, // t
    0x0075_0075, // u
    0x0076_0076, // v
    0x0077_0077, // w
    0x0078_0078, // x
    0x0079_0079, // y
    0x007A_007A, // z
    0x007B_00E7, // ç
    0x007C_00F7, // ÷
    0x007D_00D1, // Ñ
    0x007E_00F1, // ñ
    0x007F_2588, // █
];

// The control codes that are characters, commands and tabs, in the order of their bytes.
pub(crate) const CONTROL_MAP_TABLE: [u32; 99] = [
    0x1130_00AE, // ®
    0x1131_00B0, // °
    0x1132_00BD, // ½
    0x1133_00BF, // ¿
    0x1134_2122, // ™
    0x1135_00A2, // ¢
    0x1136_00A3, // £
    0x1137_266A, // ♪
    0x1138_00E0, // à
    0x1139_0000, // transparent space
    0x113A_00E8, // è
    0x113B_00E2, // â
    0x113C_00EA, // ê
    0x113D_00EE, // î
    0x113E_00F4, // ô
    0x113F_00FB, // û
    0x1220_00C1, // Á
    0x1221_00C9, // É
    0x1222_00D3, // Ó
    0x1223_00DA, // Ú
    0x1224_00DC, // Ü
    0x1225_00FC, // ü
    0x1226_2018, // ‘
    0x1227_00A1, // ¡
    0x1228_002A, // *
    0x1229_0027, // '
    0x122A_2014, // —
    0x122B_00A9, // ©
    0x122C_2120, // ℠
    0x122D_2022, // •
    0x122E_201C, // “
    0x122F_201D, // ”
    0x1230_00C0, // À
    0x1231_00C2, // Â
    0x1232_00C7, // Ç
    0x1233_00C8, // È
    0x1234_00CA, // Ê
    0x1235_00CB, // Ë
    0x1236_00EB, // ë
    0x1237_00CE, // Î
    0x1238_00CF, // Ï
    0x1239_00EF, // ï
    0x123A_00D4, // Ô
    0x123B_00D9, // Ù
    0x123C_00F9, // ù
    0x123D_00DB, // Û
    0x123E_00AB, // «
    0x123F_00BB, // »
    0x1320_00C3, // Ã
    0x1321_00E3, // ã
    0x1322_00CD, // Í
    0x1323_00CC, // Ì
    0x1324_00EC, // ì
    0x1325_00D2, // Ò
    0x1326_00F2, // ò
    0x1327_00D5, // Õ
    0x1328_00F5, // õ
    0x1329_007B, // {
    0x132A_007D, // }
    0x132B_005C, // \
    0x132C_005E, // ^
    0x132D_005F, // _
    0x132E_007C, // |
    0x132F_007E, // ~
    0x1330_00C4, // Ä
    0x1331_00E4, // ä
    0x1332_00D6, // Ö
    0x1333_00F6, // ö
    0x1334_00DF, // ß
    0x1335_00A5, // ¥
    0x1336_00A4, // ¤
    0x1337_2502, // │
    0x1338_00C5, // Å
    0x1339_00E5, // å
    0x133A_00D8, // Ø
    0x133B_00F8, // ø
    0x133C_250C, // ┌
    0x133D_2510, // ┐
    0x133E_2514, // └
    0x133F_2518, // ┘
    0x1420_0000, // resume caption loading
    0x1421_0000, // backspace
    0x1422_0000, // alarm off
    0x1423_0000, // alarm on
    0x1424_0000, // delete to end of row
    0x1425_0000, // roll-up 2
    0x1426_0000, // roll-up 3
    0x1427_0000, // roll-up 4
    0x1428_0000, // flash on
    0x1429_0000, // resume direct captioning
    0x142A_0000, // text restart
    0x142B_0000, // resume text display
    0x142C_0000, // erase displayed memory
    0x142D_0000, // carriage return
    0x142E_0000, // erase non-displayed memory
    0x142F_0000, // end of caption
    0x1721_0000, // tab offset 1
    0x1722_0000, // tab offset 2
    0x1723_0000, // tab offset 3
];

// The table of characters: its bytes and code points are the definition's.
#[tactic(auto, unfolding(crate::specs::Tables::code_entries, crate::specs::Characters::standard))]
pub(crate) fn code_table() -> [u32; 97]
    ensures { result ≡ code_entries }
{
    CODE_MAP_TABLE
}

// The control table, likewise.
#[tactic(auto, unfolding(crate::specs::Tables::control_entries))]
pub(crate) fn control_table() -> [u32; 99]
    ensures { result ≡ control_entries }
{
    CONTROL_MAP_TABLE
}

// The first entry that has this code point.
pub(crate) fn find_point(table: &[u32], point: u32) -> Option<usize>
    ensures { result ≡ position (λ e. point == e % 65536) table.now }
{
    table.iter().position(|entry| point == entry % 65536)
}

// The prefix of a row.
pub(crate) fn row_prefix(row: u8) -> Pair
    requires { row < 15 }
    ensures { result ≡ row_prefix row }
{
    ROW_PREFIXES[row as usize]
}

// The code point at a place: the standard characters, then the symbols, 0 for the transparent space. Reading looks up two
// a pair, and a `match` is one load, where a const array would be copied to the stack for each.
#[tactic(auto, unfolding(crate::specs::Characters::standard, crate::specs::Characters::symbols))]
pub(crate) fn point_at(place: u8) -> u32
    requires { place < 176 }
    ensures { result ≡ get_or all_points place 0 }
{
    match place {
        0 => 0x0020, // space
        1 => 0x0021, // !
        2 => 0x0022, // "
        3 => 0x0023, // #
        4 => 0x0024, // $
        5 => 0x0025, // %
        6 => 0x0026, // &
        7 => 0x2019, // ’
        8 => 0x0028, // (
        9 => 0x0029, // )
        10 => 0x00E1, // á
        11 => 0x002B, // +
        12 => 0x002C, // ,
        13 => 0x002D, // -
        14 => 0x002E, // .
        15 => 0x002F, // /
        16 => 0x0030, // 0
        17 => 0x0031, // 1
        18 => 0x0032, // 2
        19 => 0x0033, // 3
        20 => 0x0034, // 4
        21 => 0x0035, // 5
        22 => 0x0036, // 6
        23 => 0x0037, // 7
        24 => 0x0038, // 8
        25 => 0x0039, // 9
        26 => 0x003A, // :
        27 => 0x003B, // ;
        28 => 0x003C, // <
        29 => 0x003D, // =
        30 => 0x003E, // >
        31 => 0x003F, // ?
        32 => 0x0040, // @
        33 => 0x0041, // A
        34 => 0x0042, // B
        35 => 0x0043, // C
        36 => 0x0044, // D
        37 => 0x0045, // E
        38 => 0x0046, // F
        39 => 0x0047, // G
        40 => 0x0048, // H
        41 => 0x0049, // I
        42 => 0x004A, // J
        43 => 0x004B, // K
        44 => 0x004C, // L
        45 => 0x004D, // M
        46 => 0x004E, // N
        47 => 0x004F, // O
        48 => 0x0050, // P
        49 => 0x0051, // Q
        50 => 0x0052, // R
        51 => 0x0053, // S
        52 => 0x0054, // T
        53 => 0x0055, // U
        54 => 0x0056, // V
        55 => 0x0057, // W
        56 => 0x0058, // X
        57 => 0x0059, // Y
        58 => 0x005A, // Z
        59 => 0x005B, // [
        60 => 0x00E9, // é
        61 => 0x005D, // ]
        62 => 0x00ED, // í
        63 => 0x00F3, // ó
        64 => 0x00FA, // ú
        65 => 0x0061, // a
        66 => 0x0062, // b
        67 => 0x0063, // c
        68 => 0x0064, // d
        69 => 0x0065, // e
        70 => 0x0066, // f
        71 => 0x0067, // g
        72 => 0x0068, // h
        73 => 0x0069, // i
        74 => 0x006A, // j
        75 => 0x006B, // k
        76 => 0x006C, // l
        77 => 0x006D, // m
        78 => 0x006E, // n
        79 => 0x006F, // o
        80 => 0x0070, // p
        81 => 0x0071, // q
        82 => 0x0072, // r
        83 => 0x0073, // s
        84 => 0x0074, // t
        85 => 0x0075, // u
        86 => 0x0076, // v
        87 => 0x0077, // w
        88 => 0x0078, // x
        89 => 0x0079, // y
        90 => 0x007A, // z
        91 => 0x00E7, // ç
        92 => 0x00F7, // ÷
        93 => 0x00D1, // Ñ
        94 => 0x00F1, // ñ
        95 => 0x2588, // █
        96 => 0x00AE, // ®
        97 => 0x00B0, // °
        98 => 0x00BD, // ½
        99 => 0x00BF, // ¿
        100 => 0x2122, // ™
        101 => 0x00A2, // ¢
        102 => 0x00A3, // £
        103 => 0x266A, // ♪
        104 => 0x00E0, // à
        105 => 0x0000, // transparent space
        106 => 0x00E8, // è
        107 => 0x00E2, // â
        108 => 0x00EA, // ê
        109 => 0x00EE, // î
        110 => 0x00F4, // ô
        111 => 0x00FB, // û
        112 => 0x00C1, // Á
        113 => 0x00C9, // É
        114 => 0x00D3, // Ó
        115 => 0x00DA, // Ú
        116 => 0x00DC, // Ü
        117 => 0x00FC, // ü
        118 => 0x2018, // ‘
        119 => 0x00A1, // ¡
        120 => 0x002A, // *
        121 => 0x0027, // '
        122 => 0x2014, // —
        123 => 0x00A9, // ©
        124 => 0x2120, // ℠
        125 => 0x2022, // •
        126 => 0x201C, // “
        127 => 0x201D, // ”
        128 => 0x00C0, // À
        129 => 0x00C2, // Â
        130 => 0x00C7, // Ç
        131 => 0x00C8, // È
        132 => 0x00CA, // Ê
        133 => 0x00CB, // Ë
        134 => 0x00EB, // ë
        135 => 0x00CE, // Î
        136 => 0x00CF, // Ï
        137 => 0x00EF, // ï
        138 => 0x00D4, // Ô
        139 => 0x00D9, // Ù
        140 => 0x00F9, // ù
        141 => 0x00DB, // Û
        142 => 0x00AB, // «
        143 => 0x00BB, // »
        144 => 0x00C3, // Ã
        145 => 0x00E3, // ã
        146 => 0x00CD, // Í
        147 => 0x00CC, // Ì
        148 => 0x00EC, // ì
        149 => 0x00D2, // Ò
        150 => 0x00F2, // ò
        151 => 0x00D5, // Õ
        152 => 0x00F5, // õ
        153 => 0x007B, // {
        154 => 0x007D, // }
        155 => 0x005C, // \
        156 => 0x005E, // ^
        157 => 0x005F, // _
        158 => 0x007C, // |
        159 => 0x007E, // ~
        160 => 0x00C4, // Ä
        161 => 0x00E4, // ä
        162 => 0x00D6, // Ö
        163 => 0x00F6, // ö
        164 => 0x00DF, // ß
        165 => 0x00A5, // ¥
        166 => 0x00A4, // ¤
        167 => 0x2502, // │
        168 => 0x00C5, // Å
        169 => 0x00E5, // å
        170 => 0x00D8, // Ø
        171 => 0x00F8, // ø
        172 => 0x250C, // ┌
        173 => 0x2510, // ┐
        174 => 0x2514, // └
        _ => 0x2518, // ┘
    }
}
