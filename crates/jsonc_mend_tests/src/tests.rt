mod documents;
mod mended;
mod rows;
mod told;
