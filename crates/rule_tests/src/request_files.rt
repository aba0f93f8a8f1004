//! Tables of good and damaged request files.

mod damage;
mod files;
mod limits;
mod opened;
