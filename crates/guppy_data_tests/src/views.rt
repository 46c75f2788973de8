mod dependency;
mod filled;
mod package;
mod source;
mod target;
