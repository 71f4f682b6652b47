// Films made from lists.
use std::alloc::Global;
use std::test::Fail;
use strip_film::Film;
use strip_model::Pair;

/// Makes the film of these lists, or returns none if they break the limits.
pub(crate) fn film_of(
    alloc: Global,
    casts: &[u64],
    days: &[u64],
    rates: &[u64],
    holds: &[u64],
    pairs: &[Pair],
) -> Result<Option<Film>, Fail> {
    let casts = Vec::from_slice(alloc, casts)?;
    let days = Vec::from_slice(alloc, days)?;
    let rates = Vec::from_slice(alloc, rates)?;
    let holds = Vec::from_slice(alloc, holds)?;
    let pairs = Vec::from_slice(alloc, pairs)?;
    Ok(Film::of(casts, days, rates, holds, pairs))
}

/// Makes a film without pairs, in which waiting is paid like work.
pub(crate) fn film(
    alloc: Global,
    casts: &[u64],
    days: &[u64],
    rates: &[u64],
) -> Result<Film, Fail> {
    let film = film_of(alloc, casts, days, rates, rates, &[])?.ok_or("within the limits")?;
    Ok(film)
}

/// The casts of the triangle: three scenes of two actors each.
pub(crate) const CASTS: [u64; 3] = [0b011, 0b110, 0b101];

/// Makes the triangle, with a day for each scene.
pub(crate) fn triangle(
    alloc: Global,
    rates: &[u64],
    holds: &[u64],
    pairs: &[Pair],
) -> Result<Film, Fail> {
    let film = film_of(alloc, &CASTS, &[1, 1, 1], rates, holds, pairs)?;
    let film = film.ok_or("within the limits")?;
    Ok(film)
}

pub(crate) fn plain_triangle(alloc: Global) -> Result<Film, Fail> {
    triangle(alloc, &[1, 2, 3], &[1, 2, 3], &[])
}

/// Makes a ring of four actors: each shares a scene with the one before and one with the next.
pub(crate) fn ring(alloc: Global) -> Result<Film, Fail> {
    film(
        alloc,
        &[0b1001, 0b0011, 0b0110, 0b1100],
        &[1; 4],
        &[1, 2, 3, 4],
    )
}

/// Makes a film of eight scenes, with pairs of five actors as casts.
pub(crate) fn eight(alloc: Global) -> Result<Film, Fail> {
    let casts = [
        0b00011, 0b00101, 0b01001, 0b10001, 0b00110, 0b01010, 0b10010, 0b01100,
    ];
    film(alloc, &casts, &[1; 8], &[1, 2, 3, 4, 5])
}
