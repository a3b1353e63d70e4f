ghost use Rattle.std.specs.Prelude.{◌≡◌, ◌≢◌, ◌<◌, ◌≤◌};
ghost use Rattle.pls_perms.specs.Tour.{edge_count, place_from, place_of};

/// How many edges there are between the cities.
pub fn edge_count(cities: u16) -> usize
    requires some { 1 ≤ cities }
    requires few { cities ≤ 256 }
    ensures value { result ≡ edge_count cities }
    ensures few { result ≤ 65536 }
{
    let cities = cities as usize;
    cities * (cities - 1) / 2
}

/// The place of the edge between two cities, found by arithmetic alone.
pub fn place_of(cities: u16, a: u8, b: u8) -> u32
    requires few { cities ≤ 256 }
    requires a_in { a < cities }
    requires b_in { b < cities }
    requires apart { a ≢ b }
    ensures value { result ≡ place_of cities a b }
    ensures within { result < edge_count cities }
{
    place_from(cities as u32, a.min(b) as u32, a.max(b) as u32)
}

/// The place of the edge between a city and a later one.
fn place_from(cities: u32, a: u32, b: u32) -> u32
    requires few { cities ≤ 256 }
    requires order { a < b }
    requires b_in { b < cities }
    ensures value { result ≡ place_from cities a b }
    ensures within { result < edge_count cities }
{
    a * (2 * cities - a - 1) / 2 + (b - a - 1)
}
