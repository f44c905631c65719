// The variables of the processes, eight for each, in a lent array.
ghost use Rattle.std.specs.Prelude.{◌≡◌, ◌+◌, ◌-◌, ◌*◌, ◌%◌, ◌^◌, ◌<◌, slice_index, slice_set};

// Variable a of process p.
pub fn get(variables: &[u32; 96], p: usize, a: u32) -> u32
    requires { (p < 12) × (a < 8) }
    ensures { result ≡ slice_index variables.now (8 * p + a) }
{
    variables[8 * p + a as usize]
}

// Variable a of process p becomes x.
pub fn set(variables: &mut [u32; 96], p: usize, a: u32, x: u32)
    requires { (p < 12) × (a < 8) }
    ensures { variables.new ≡ slice_set variables.old (8 * p + a) x }
{
    variables[8 * p + a as usize] = x;
}

// Variable a becomes the sum of b and c, modulo 2^32.
pub fn add(variables: &mut [u32; 96], p: usize, a: u32, b: u32, c: u32)
    requires { (p < 12) × (a < 8) × (b < 8) × (c < 8) }
    ensures { variables.new ≡ slice_set variables.old (8 * p + a) ((slice_index variables.old (8 * p + b) + slice_index variables.old (8 * p + c)) % 2 ^ 32) }
{
    let sum = get(variables, p, b).wrapping_add(get(variables, p, c));
    set(variables, p, a, sum);
}

// Variable a becomes b less c, modulo 2^32.
pub fn subtract(variables: &mut [u32; 96], p: usize, a: u32, b: u32, c: u32)
    requires { (p < 12) × (a < 8) × (b < 8) × (c < 8) }
    ensures { variables.new ≡ slice_set variables.old (8 * p + a) ((slice_index variables.old (8 * p + b) + (2 ^ 32 - slice_index variables.old (8 * p + c))) % 2 ^ 32) }
{
    let difference = get(variables, p, b).wrapping_sub(get(variables, p, c));
    set(variables, p, a, difference);
}
