// Statements about disc files (change request 14), proved of its definitions. No code.
