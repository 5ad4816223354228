//! Division of numbers that mostly fit 64 bits by powers of five and ten, which are guessed by products.

ghost use Rattle.std.specs.Prelude.{◌≡◌, ◌*◌, ◌/◌, ◌%◌, ◌^◌, ◌<◌, ◌≤◌, IfSome};

// From 5^0 to 5^24.
const POWERS_OF_FIVE: [u64; 25] = [
    1,
    5,
    25,
    125,
    625,
    3_125,
    15_625,
    78_125,
    390_625,
    1_953_125,
    9_765_625,
    48_828_125,
    244_140_625,
    1_220_703_125,
    6_103_515_625,
    30_517_578_125,
    152_587_890_625,
    762_939_453_125,
    3_814_697_265_625,
    19_073_486_328_125,
    95_367_431_640_625,
    476_837_158_203_125,
    2_384_185_791_015_625,
    11_920_928_955_078_125,
    59_604_644_775_390_625,
];

// The number that times 5^count is 1 above a multiple of 2^128, for a count from 0 to 24. It only guesses
// a quotient, which is tested.
const INVERSES_OF_FIVE: [u128; 25] = [
    1,
    272_225_893_536_750_770_770_699_685_945_414_569_165,
    54_445_178_707_350_154_154_139_937_189_082_913_833,
    147_001_982_509_845_416_216_177_830_410_523_867_349,
    97_456_869_886_156_775_935_910_487_568_458_415_761,
    291_717_267_513_982_125_957_881_783_459_106_252_317,
    262_512_873_655_359_503_269_601_121_150_882_177_337,
    256_671_994_883_634_978_731_944_988_689_237_362_341,
    323_560_292_513_477_766_517_088_683_683_262_041_633,
    200_825_005_271_070_938_688_767_579_709_359_692_909,
    108_221_474_438_401_880_430_428_437_428_225_580_873,
    157_757_241_656_055_761_471_435_530_458_352_400_757,
    235_720_868_483_774_230_372_311_870_550_731_407_025,
    47_144_173_696_754_846_074_462_374_110_146_281_405,
    9_428_834_739_350_969_214_892_474_822_029_256_281,
    274_111_660_484_620_964_613_678_180_909_820_420_421,
    327_048_225_633_674_963_693_435_322_127_378_653_249,
    133_466_118_510_922_685_431_361_985_911_829_372_941,
    298_919_117_238_935_307_856_972_083_127_780_443_753,
    195_896_770_216_162_446_956_744_259_598_263_373_333,
    175_292_300_811_607_874_776_698_694_892_359_959_249,
    103_114_933_546_509_267_648_014_660_464_825_634_141,
    292_848_880_246_052_624_300_302_618_038_379_695_993,
    194_682_722_817_585_910_245_410_366_580_383_223_781,
    311_162_438_100_267_952_819_781_759_261_491_213_921,
];

// 2^64 - 1 over 10^count, for a count from 0 to 18, times as large a power of two as leaves it below 2^64. It only
// guesses a quotient, which is tested.
const RECIPROCALS_OF_TEN: [u64; 19] = [
    18_446_744_073_709_551_615,
    14_757_395_258_967_641_292,
    11_805_916_207_174_113_034,
    9_444_732_965_739_290_427,
    15_111_572_745_182_864_683,
    12_089_258_196_146_291_747,
    9_671_406_556_917_033_397,
    15_474_250_491_067_253_436,
    12_379_400_392_853_802_748,
    9_903_520_314_283_042_199,
    15_845_632_502_852_867_518,
    12_676_506_002_282_294_014,
    10_141_204_801_825_835_211,
    16_225_927_682_921_336_339,
    12_980_742_146_337_069_071,
    10_384_593_717_069_655_257,
    16_615_349_947_311_448_411,
    13_292_279_957_849_158_729,
    10_633_823_966_279_326_983,
];

/// `5^exponent`.
pub fn power_of_five(exponent: u8) -> u64
    requires { exponent ≤ 24 }
    ensures { result ≡ 5 ^ exponent }
{
    POWERS_OF_FIVE[usize::from(exponent)]
}

/// `10^exponent`.
pub fn power_of_ten(exponent: u8) -> u64
    requires { exponent ≤ 18 }
    ensures { result ≡ 10 ^ exponent }
{
    power_of_five(exponent) << exponent
}

/// A number over `5^count`, where it is a multiple of that: by a product with the inverse of `5^count`, since a division
/// would take ten times as long.
#[inline(always)]
pub fn without_fives(number: u128, count: u8) -> Option<u128>
    requires { count ≤ 24 }
    ensures { IfSome result (λ rest. number ≡ rest * 5 ^ count) }
{
    if count == 0 {
        return Some(number);
    }
    let five = u128::from(power_of_five(count));
    let rest = number.wrapping_mul(INVERSES_OF_FIVE[usize::from(count)]);
    if rest.checked_mul(five)? == number {
        Some(rest)
    } else {
        None
    }
}

/// A number over `10^count`, and what remains. A product guesses the quotient. Where it guesses wrong, a division finds
/// it, which takes ten times as long.
#[inline(always)]
pub fn over_power_of_ten(number: u128, count: u8) -> (u128, u64)
    requires { count ≤ 18 }
    ensures quotient { result.0 ≡ number / 10 ^ count }
    ensures remainder { result.1 ≡ number % 10 ^ count }
{
    let ten = power_of_ten(count);
    let reciprocal = RECIPROCALS_OF_TEN[usize::from(count)];
    // (10^count is at least this power of two)
    let power = u32::from(count) * 53 / 16;
    if number <= u128::from(u64::MAX) {
        let small = number as u64;
        let (quotient, rest) = divided(small, ten, upper_product(small, reciprocal) >> power);
        (u128::from(quotient), rest)
    } else {
        let guess = upper_product_wide(number, reciprocal) >> power;
        divided_wide(number, ten, lowest(guess))
    }
}

// A number over another, and what remains. The guess may be the quotient.
#[inline(always)]
fn divided(number: u64, divisor: u64, guess: u64) -> (u64, u64)
    requires { 0 < divisor }
    ensures quotient { result.0 ≡ number / divisor }
    ensures remainder { result.1 ≡ number % divisor }
{
    if let Some(whole) = guess.checked_mul(divisor) {
        if whole <= number && number - whole < divisor {
            return (guess, number - whole);
        }
    }
    (number / divisor, number % divisor)
}

// The same of a number of 128 bits.
#[inline(always)]
fn divided_wide(number: u128, divisor: u64, guess: u64) -> (u128, u64)
    requires { 0 < divisor }
    ensures quotient { result.0 ≡ number / divisor }
    ensures remainder { result.1 ≡ number % divisor }
{
    let wide = u128::from(divisor);
    let whole = u128::from(guess) * wide;
    if whole <= number && number - whole < wide {
        return (u128::from(guess), (number - whole) as u64);
    }
    (number / wide, (number % wide) as u64)
}

// The upper 64 bits of a product.
#[inline(always)]
fn upper_product(a: u64, b: u64) -> u64
    ensures { result ≡ a * b / 2 ^ 64 }
{
    ((u128::from(a) * u128::from(b)) >> 64) as u64
}

// The upper 128 bits of a product.
#[inline(always)]
fn upper_product_wide(a: u128, b: u64) -> u128
    ensures { result ≡ a * b / 2 ^ 64 }
{
    (a >> 64) * u128::from(b) + u128::from(upper_product(lowest(a), b))
}

// The lowest 64 bits of a number.
#[inline(always)]
fn lowest(number: u128) -> u64
    ensures { result ≡ number % 2 ^ 64 }
{
    (number & u128::from(u64::MAX)) as u64
}
