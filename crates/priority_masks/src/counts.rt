// How many distinct numbers there are.
ghost use Rattle.std.specs.Prelude.{◌≡◌, ◌+◌, ◌<◌, ◌≤◌, ◌==◌, drop, filter, length, nat_le, slice_index};
ghost use Rattle.std.specs.List.{list_any};
ghost use Rattle.efrp_meaning.specs.Bounds.{distinct};

// Whether the number is one of these.
fn is_among(numbers: &[u16], number: u16) -> bool
    ensures { result ≡ list_any (λ m. m == number) numbers.now }
{
    numbers.iter().any(|other| *other == number)
}

// Whether the number at this place stands behind it once more.
fn comes_again(numbers: &[u16], i: usize) -> bool
    requires { i < length numbers.now }
    ensures { result ≡ list_any (λ m. m == slice_index numbers.now i) (drop (i + 1) numbers.now) }
{
    let number = numbers[i];
    is_among(&numbers[i + 1..], number)
}

// How many distinct numbers there are.
pub(crate) fn distinct(numbers: &[u16]) -> u8
    requires { length numbers.now ≤ 11 }
    ensures { result ≡ distinct numbers.now }
{
    let mut count = 0;
    for i in 0..numbers.len() {
        if !comes_again(numbers, i) {
            count += 1;
        }
    }
    count
}

// How many distinct numbers there are among those that are at most this one.
pub(crate) fn distinct_up_to(numbers: &[u16], most: u16) -> u8
    requires { length numbers.now ≤ 11 }
    ensures { result ≡ distinct (filter (λ n. nat_le n most) numbers.now) }
{
    let mut count = 0;
    for (i, number) in numbers.iter().enumerate() {
        if *number <= most && !comes_again(numbers, i) {
            count += 1;
        }
    }
    count
}
