mod builders;
mod declarations;
mod expressions;
mod statements;
