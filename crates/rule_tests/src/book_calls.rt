//! The table book and the image book on examples.
#[cfg(test)]
mod damage;
#[cfg(test)]
mod image_bytes;
#[cfg(test)]
mod same_calls;
mod samples;
