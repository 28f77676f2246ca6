// Theorems by computation about calls over lent bytes: no code.
