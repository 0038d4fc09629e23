// A first guess at a whole square root, by a table and one step of Newton's method, with no division.
ghost use Rattle.std.specs.Prelude.{◌^◌, ◌<◌};

// For v from i / 64 up to (i + 1) / 64, the reciprocal root 1 / √v is nearly, and never below, c + d · u + e · u², where u is how far v is below the upper end:
// the quadratic through three points, with c lowered to make it so. The row of i has 2^22 · c, 2^15 · d and 2^9 · e, in fields of 24, 20 and 20 bits.
// It is a `match` and no array, since an array would be written out anew at each call.
fn row(i: u64) -> u64 {
    match i {
        16 => 0x7C2D9D_1D2E4_0163B,
        17 => 0x78ADF4_1AC96_01332,
        18 => 0x7575F7_18B40_010B4,
        19 => 0x727C94_16E05_00EA4,
        20 => 0x6FBA40_15436_00CED,
        21 => 0x6D28A2_13D51_00B77,
        22 => 0x6AC264_128DE_00A3C,
        23 => 0x6882F5_11684_00930,
        24 => 0x666665_105FE_00846,
        25 => 0x646954_0F708_0077D,
        26 => 0x6288CF_0E972_006CE,
        27 => 0x60C246_0DD10_00633,
        28 => 0x5F1374_0D1BB_005AC,
        29 => 0x5D7A5A_0C759_00532,
        30 => 0x5BF539_0BDC7_004C9,
        31 => 0x5A8278_0B4F4_0046B,
        32 => 0x5920B2_0ACCD_00415,
        33 => 0x57CEA8_0A53D_003C8,
        34 => 0x568B35_09E35_00384,
        35 => 0x555554_097AA_00346,
        36 => 0x542C19_0918E_0030F,
        37 => 0x530EAE_08BDA_002DB,
        38 => 0x51FC50_08683_002AC,
        39 => 0x50F44C_08180_00282,
        40 => 0x4FF600_07CCC_0025A,
        41 => 0x4F00D8_0785C_00238,
        42 => 0x4E144A_07431_00216,
        43 => 0x4D2FD7_07041_001F8,
        44 => 0x4C530E_06C89_001DC,
        45 => 0x4B7D82_06902_001C4,
        46 => 0x4AAED0_065AF_001AA,
        47 => 0x49E69C_06286_00194,
        48 => 0x492491_05F86_0017F,
        49 => 0x48685F_05CAC_0016D,
        50 => 0x47B1BF_059F5_0015C,
        51 => 0x470069_05760_0014B,
        52 => 0x46541E_054EB_0013B,
        53 => 0x45ACA3_05292_0012C,
        54 => 0x4509BD_05055_0011E,
        55 => 0x446B3A_04E31_00111,
        56 => 0x43D0E7_04C25_00105,
        57 => 0x433A97_04A2E_000FB,
        58 => 0x42A81C_0484D_000F1,
        59 => 0x421950_04680_000E7,
        60 => 0x418E0B_044C7_000DC,
        61 => 0x410628_0431F_000D3,
        62 => 0x408182_04188_000CB,
        63 => 0x3FFFFF_03FFF_000C4,
        _ => 0,
    }
}

// About the whole square root of x: by measurement the root or, for few x, one less. Only its size is promised and relied on: the rest decides how fast
// the root is found, and not what is found.
pub fn root_guess(x: u64) -> u64
    ensures { result < 2 ^ 32 }
{
    // m = 4^h · x has one of its two top bits set, unless x is 0
    let h = u64::leading_zeros(x) % 64 / 2;
    let m = x << (2 * h);
    // y is 2^22 / √(m / 2^64), or a little less
    let fields = row(m >> 58);
    let u = 0xF_FFFF - (m >> 38) % 0x10_0000;
    let slope = (fields >> 20) % 0x10_0000 + (u * (fields % 0x10_0000) >> 20);
    let y = (fields >> 40) + (u * slope >> 19);
    // s is √m, or a little less; what its square leaves of m says by how much
    let s = ((m >> 32) * y >> 22) % 0x1_0000_0000;
    let rest = std::num::wrapping_sub_u64(m, s * s);
    let t = (s + ((rest >> 14) % 0x1_0000_0000 * y >> 41)) % 0x1_0000_0000;
    t >> h
}
