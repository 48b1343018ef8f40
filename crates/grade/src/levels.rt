// The opacity levels of a number of level bits: `alpha_levels_owned` of codec.rs, taken as a rule.
ghost use Rattle.std.specs.Prelude.{◌≡◌, ◌≤◌, ◌<◌, ◌^◌, length};
ghost use Rattle.laws.specs.Tab.{tab};
ghost use Rattle.grade.specs.Levels.{level_of, level_at, AlphaLevelsSays};
ghost use Rattle.refusal.specs.Outcomes.{number_of};

use refusal::Refusal;

fn level(n: u16, i: u16) -> f32
    requires { 1 ≤ n }
    ensures { result ≡ level_of n i }
{
    if n == 1 {
        return 0.20;
    }
    0.20 + (0.90 - 0.20) * (i as f32) / ((n - 1) as f32)
}

fn level_at(n: u16, i: u16) -> f32
    requires { 1 ≤ n }
    ensures { result ≡ level_at n i }
{
    if i < n {
        return level(n, i);
    }
    0.0
}

fn fill_levels(n: u16, levels: &mut [f32])
    requires { (1 ≤ n) × (length levels.old ≡ 64) }
    ensures { levels.new ≡ tab (level_at n) 64 }
{
    for i in 0..64u16 {
        levels[i as usize] = level_at(n, i);
    }
}

fn count_of(bits: u32) -> u16
    requires { bits ≤ 6 }
    ensures { (result ≡ 2 ^ bits) × (1 ≤ result) }
{
    match bits {
        0 => 1,
        1 => 2,
        2 => 4,
        3 => 8,
        4 => 16,
        5 => 32,
        _ => 64,
    }
}

// Fills 64 lent places; another length is refused, and bits above 6.
pub fn alpha_levels(bits: u32, levels: &mut [f32]) -> Result<(), Refusal>
    ensures { AlphaLevelsSays bits levels.old (number_of result) levels.new }
{
    if levels.len() != 64 {
        return Err(Refusal::Length);
    }
    if 6 < bits {
        return Err(Refusal::Count);
    }
    fill_levels(count_of(bits), levels);
    Ok(())
}
