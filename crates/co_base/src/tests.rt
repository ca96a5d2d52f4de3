mod outside_calls;
mod plain_calls;
mod table;
