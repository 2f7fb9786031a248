// Tests by bytes from outside: tables, error records, error status blocks, streams, and a listener; and what a listener has heard where a
// reply is refused, since the program shows no listener once its output is gone.
mod blocks;
mod erst;
mod hest;
mod listeners;
mod records;
mod refused;
mod streams;
