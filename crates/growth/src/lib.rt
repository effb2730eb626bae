// Growing cost of waiting: what each further period of hold costs, in millionths.
#![tactic(auto)]

ghost use Rattle.std.specs.Prelude.{◌≡◌, ◌^◌, ◌≤◌, ◌<◌};
ghost use Rattle.growth.specs.Growth.{factor, HoldsFactors, further_cost, growth_cost, most_growth, most_growth_periods};

// The greatest growth, in tenths, and the most periods of a day that has one.
pub const GROWTH: usize = 40;

pub const GROWTH_PERIODS: usize = 6;

// A row of six factors for each growth.
pub type FactorTable = [[u32; GROWTH_PERIODS]; GROWTH + 1];

// The factors (10 + a)^t × 10^(6−t): a row for each growth of a tenths, and in it t from 0 to 5. To check it by eye: each row begins with
// 1000000, and each number is the one before it times (10 + a)/10.
const FACTORS: FactorTable = [
    [1000000, 1000000, 1000000, 1000000, 1000000, 1000000], // a = 0
    [1000000, 1100000, 1210000, 1331000, 1464100, 1610510], // a = 1
    [1000000, 1200000, 1440000, 1728000, 2073600, 2488320], // a = 2
    [1000000, 1300000, 1690000, 2197000, 2856100, 3712930], // a = 3
    [1000000, 1400000, 1960000, 2744000, 3841600, 5378240], // a = 4
    [1000000, 1500000, 2250000, 3375000, 5062500, 7593750], // a = 5
    [1000000, 1600000, 2560000, 4096000, 6553600, 10485760], // a = 6
    [1000000, 1700000, 2890000, 4913000, 8352100, 14198570], // a = 7
    [1000000, 1800000, 3240000, 5832000, 10497600, 18895680], // a = 8
    [1000000, 1900000, 3610000, 6859000, 13032100, 24760990], // a = 9
    [1000000, 2000000, 4000000, 8000000, 16000000, 32000000], // a = 10
    [1000000, 2100000, 4410000, 9261000, 19448100, 40841010], // a = 11
    [1000000, 2200000, 4840000, 10648000, 23425600, 51536320], // a = 12
    [1000000, 2300000, 5290000, 12167000, 27984100, 64363430], // a = 13
    [1000000, 2400000, 5760000, 13824000, 33177600, 79626240], // a = 14
    [1000000, 2500000, 6250000, 15625000, 39062500, 97656250], // a = 15
    [1000000, 2600000, 6760000, 17576000, 45697600, 118813760], // a = 16
    [1000000, 2700000, 7290000, 19683000, 53144100, 143489070], // a = 17
    [1000000, 2800000, 7840000, 21952000, 61465600, 172103680], // a = 18
    [1000000, 2900000, 8410000, 24389000, 70728100, 205111490], // a = 19
    [1000000, 3000000, 9000000, 27000000, 81000000, 243000000], // a = 20
    [1000000, 3100000, 9610000, 29791000, 92352100, 286291510], // a = 21
    [1000000, 3200000, 10240000, 32768000, 104857600, 335544320], // a = 22
    [1000000, 3300000, 10890000, 35937000, 118592100, 391353930], // a = 23
    [1000000, 3400000, 11560000, 39304000, 133633600, 454354240], // a = 24
    [1000000, 3500000, 12250000, 42875000, 150062500, 525218750], // a = 25
    [1000000, 3600000, 12960000, 46656000, 167961600, 604661760], // a = 26
    [1000000, 3700000, 13690000, 50653000, 187416100, 693439570], // a = 27
    [1000000, 3800000, 14440000, 54872000, 208513600, 792351680], // a = 28
    [1000000, 3900000, 15210000, 59319000, 231344100, 902241990], // a = 29
    [1000000, 4000000, 16000000, 64000000, 256000000, 1024000000], // a = 30
    [1000000, 4100000, 16810000, 68921000, 282576100, 1158562010], // a = 31
    [1000000, 4200000, 17640000, 74088000, 311169600, 1306912320], // a = 32
    [1000000, 4300000, 18490000, 79507000, 341880100, 1470084430], // a = 33
    [1000000, 4400000, 19360000, 85184000, 374809600, 1649162240], // a = 34
    [1000000, 4500000, 20250000, 91125000, 410062500, 1845281250], // a = 35
    [1000000, 4600000, 21160000, 97336000, 447745600, 2059629760], // a = 36
    [1000000, 4700000, 22090000, 103823000, 487968100, 2293450070], // a = 37
    [1000000, 4800000, 23040000, 110592000, 530841600, 2548039680], // a = 38
    [1000000, 4900000, 24010000, 117649000, 576480100, 2824752490], // a = 39
    [1000000, 5000000, 25000000, 125000000, 625000000, 3125000000], // a = 40
];

// The table, made once for a plan and lent on: the compiler puts a constant together anew wherever it is read.
pub fn factor_table() -> FactorTable
    ensures { HoldsFactors result }
{
    FACTORS
}

// What the t-th further period of hold costs, t from 0, in millionths of the rate.
fn factor(factors: &FactorTable, growth: usize, t: usize) -> usize
    requires { HoldsFactors factors.now × (growth ≤ most_growth) × (t < most_growth_periods) }
    ensures { result ≡ factor growth t }
{
    factors[growth][t] as usize
}

// What the t-th further period of hold costs a flight.
pub fn further_cost(factors: &FactorTable, growth: usize, rate: usize, t: usize) -> usize
    requires { HoldsFactors factors.now × (growth ≤ most_growth) × (rate < 2 ^ 32) × (t < most_growth_periods) }
    ensures { result ≡ further_cost growth rate t }
{
    rate * factor(factors, growth, t)
}

// What a hold costs a flight.
pub fn growth_cost(factors: &FactorTable, growth: usize, rate: usize, hold: usize) -> usize
    requires { HoldsFactors factors.now × (growth ≤ most_growth) × (rate ≤ 10000) × (hold ≤ most_growth_periods) }
    ensures { result ≡ growth_cost growth rate hold }
{
    let mut sum = 0;
    for t in 0..hold {
        sum += further_cost(factors, growth, rate, t);
    }
    sum
}
