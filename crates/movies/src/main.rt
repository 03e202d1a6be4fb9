//! Movies by title: serialized, read and overwritten in place.
#![tactic(auto)]

ghost use Rattle.movies.specs.Movie.{movie_layout, movie_lawful};
ghost use Rattle.rkyv_btree_base.specs.Archiving.{itself};

use anyhow::{Result, bail};
use rkyv_btree::prelude::*;
use std::collections::BTreeMap;

/// A movie: when it came out, how it is rated, and how long it is.
#[derive(Clone, Copy, Debug, PartialEq, Eq, PartialOrd, Ord, Hash)]
pub struct Movie {
    pub year: u16,
    pub stars: u8,
    pub seconds: u32,
}

/// A movie in eight bytes.
pub type ArchivedMovie = ArchivedPlain<Movie>;

impl PlainValue for Movie {
    ghost layout = { movie_layout };

    ghost lawful = { movie_lawful };

    fn size_and_align() -> (u32, u32) {
        (8, 4)
    }

    fn is_value(_bytes: &[u8]) -> bool {
        true
    }

    fn from_bytes(bytes: &[u8]) -> Movie {
        let [y0, y1, stars, _, s0, s1, s2, s3] = *bytes else {
            unreachable!()
        };
        Movie {
            year: u16::from_le_bytes([y0, y1]),
            stars,
            seconds: u32::from_le_bytes([s0, s1, s2, s3]),
        }
    }

    fn write_bytes(self, bytes: &mut [u8]) {
        let [y0, y1] = self.year.to_le_bytes();
        let [s0, s1, s2, s3] = self.seconds.to_le_bytes();
        bytes.copy_from_slice(&[y0, y1, self.stars, 0, s0, s1, s2, s3]);
    }

    fn is_in(self) {}
}

impl Native for Movie {
    type Plain = ArchivedMovie;

    ghost same_plain = { itself _ };

    fn is_in(self) {}
}

type Movies = Archived<BTreeMap<String, Movie>>;

fn main(rt: HostRuntime) -> Result<()> {
    let alloc = rt.alloc();
    sizes_fit::<Movies>();
    let mut movies: BTreeMap<String, Movie> = BTreeMap::new(alloc);
    for (title, year, stars, seconds) in [("Alien", 1979, 5, 7020), ("Dune", 2021, 4, 9300)] {
        let movie = Movie {
            year,
            stars,
            seconds,
        };
        movies.insert(String::from_str(alloc, title)?, movie)?;
    }
    let mut bytes = to_archive(alloc, &movies)?;

    for (title, movie) in open::<Movies>(&bytes)? {
        let movie = movie.to_native();
        println!(rt;
            "{title} ({}): {} stars, {} seconds",
            movie.year, movie.stars, movie.seconds
        )?;
    }

    let mut map = open_mut::<Movies>(&mut bytes)?;
    let Some(dune) = map.as_view().get_native_by("Dune") else {
        bail!("no such movie");
    };
    map.set_by("Dune", Movie { stars: 5, ..dune });
    println!(rt; "{:?}", map.as_view().get_native_by("Dune"))?;
    Ok(())
}
